// The lines: their letter and, for a window, what check 3 says.
use numbers_definitions::{Address, Class};
use std::io;
use std::io::Write;

// The letter of a line about an order or a window: for class 1 a small one, for class 2 a capital one.
// Every class is named: the output has these letters.
pub fn letter(class: Class, small: u8, capital: u8) -> u8 {
    match class {
        Class::Elf32 => small,
        Class::Elf64 => capital,
    }
}

// The number and the place of an answer, after the letter.
pub fn answer(out: &mut impl Write, kind: u8, number: u64, place: u64) -> io::Result<()> {
    out.write_all(&[kind, b' '])?;
    tests_harness::answer(out, number, place)
}

// w and W: check 3 of an install, then check 3 of a rollback.
pub fn window(out: &mut impl Write, class: Class, base: Address, length: usize) -> io::Result<()> {
    let install = number(order_format::window_allowed(class, base, length));
    answer(out, letter(class, b'w', b'W'), install, 0)?;
    tests_harness::then(out, number(order_format::length_allowed(length)))?;
    tests_harness::then(out, base.0)?;
    tests_harness::then(out, length as u64)?;
    tests_harness::end(out)
}

// The number of check 3 in a line, or 0.
fn number(is_allowed: bool) -> u64 {
    if is_allowed { 0 } else { 3 }
}
