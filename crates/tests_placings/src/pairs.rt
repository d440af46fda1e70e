// p: the first of checks 4, 2, 3 and 5 to 8 that an object and an order break. If they break none, the addresses and the
// values of the symbols.
ghost use Rattle.std.specs.Prelude.{◌≡◌, true, ◌≤◌};
ghost use Rattle.elf_read.specs.Headers.{class_of, max_sections};
ghost use Rattle.elf_check.specs.Rules.{max_symbols};
ghost use Rattle.elf_header.specs.Headers.{header_allowed};
ghost use Rattle.elf_check.specs.Requires.{SoundObject};
ghost use Rattle.order_format.specs.Windows.{max_image};
ghost use Rattle.placing_symbols.specs.Arrays.{ValueArrays};

use elf_check::MAX_SYMBOLS;
use elf_read::{MAX_SECTIONS, class_of};
use order_format::Order;
use order_lookup::Addresses;
use placing_symbols::{Reason, SymbolValue, reason_number};
use std::io;
use std::io::Write;

pub fn line(out: &mut impl Write, object: &[u8], order: &[u8], len: usize) -> io::Result<()> {
    if elf_header::check_header(object) {
        read(out, object, order, len)?;
    } else {
        tests_harness::answer(out, 4, 0)?;
    }
    tests_harness::end(out)
}

// Check 2. The object's class says how the order is read.
fn read(out: &mut impl Write, object: &[u8], order: &[u8], len: usize) -> io::Result<()>
    requires { header_allowed object.now ≡ true }
{
    match Order::read(class_of(object), order) {
        None => tests_harness::answer(out, 2, 0),
        Some(order) => sections(out, object, &order, len),
    }
}

// Checks 3 and 5.
fn sections(out: &mut impl Write, object: &[u8], order: &Order<'_>, len: usize) -> io::Result<()>
    requires { (header_allowed object.now ≡ true) × (order.now.class ≡ class_of object.now) }
{
    if !order_format::window_allowed(order.class, order.counts.base, len) {
        return tests_harness::answer(out, 3, 0);
    }
    match elf_check::check_sections(object) {
        Err(i) => tests_harness::answer(out, 5, u64::from(i)),
        Ok(()) => placements(out, object, order, len),
    }
}

// Check 6.
// No check of this file is asked by `?`: each writes the line of its own number.
fn placements(out: &mut impl Write, object: &[u8], order: &Order<'_>, len: usize) -> io::Result<()>
    requires { SoundObject object.now × (order.now.class ≡ class_of object.now) × (len ≤ max_image) }
{
    match placing_match::check_placements(object, order) {
        Err(i) => tests_harness::answer(out, 6, u64::from(i)),
        Ok(()) => externals(out, object, order, len),
    }
}

// Check 7.
fn externals(out: &mut impl Write, object: &[u8], order: &Order<'_>, len: usize) -> io::Result<()>
    requires { SoundObject object.now × (order.now.class ≡ class_of object.now) × (len ≤ max_image) }
{
    match placing_match::check_externals(object, order) {
        Err(k) => tests_harness::answer(out, 7, u64::from(k)),
        Ok(()) => placing(out, object, order, len),
    }
}

// Check 8.
fn placing(out: &mut impl Write, object: &[u8], order: &Order<'_>, len: usize) -> io::Result<()>
    requires { SoundObject object.now × (order.now.class ≡ class_of object.now) × (len ≤ max_image) }
{
    let given = order_lookup::fill_addresses([0u64; MAX_SECTIONS], order);
    match placing_check::check_placing(object, given, order.counts.base, len) {
        Err(found) => tests_harness::answer(out, 8, u64::from(found.section)),
        Ok(array) => passed(out, object, order, array),
    }
}

fn passed(
    out: &mut impl Write,
    object: &[u8],
    order: &Order<'_>,
    array: Addresses,
) -> io::Result<()>
    requires { SoundObject object.now × (order.now.class ≡ class_of object.now) }
{
    let symbols = placing_symbols::symbols_of(object);
    let mut numbers = [0u64; MAX_SYMBOLS];
    let mut states = [Err(Reason::PastTable); MAX_SYMBOLS];
    let known = placing_symbols::symbol_values(
        object,
        order,
        symbols,
        array,
        &mut numbers,
        &mut states,
    );
    tests_harness::answer(out, 0, 0)?;
    addresses(out, known, elf_read::section_count(object))?;
    values(out, &numbers, &states, symbols.count)
}

// The address of each of n sections, 0 where there is none.
fn addresses(out: &mut impl Write, array: Addresses, n: usize) -> io::Result<()>
    requires { n ≤ max_sections }
{
    for address in &array[..n] {
        tests_harness::then(out, *address)?;
    }
    Ok(())
}

// The value of each of n symbols, and of three numbers past the table.
fn values(
    out: &mut impl Write,
    numbers: &[u64],
    states: &[Result<(), Reason>],
    n: usize,
) -> io::Result<()>
    requires { ValueArrays numbers.now states.now × (n ≤ max_symbols) }
{
    for k in 0..n as u32 + 3 {
        print(out, placing_symbols::value_at(numbers, states, k))?;
    }
    Ok(())
}

// The value, or a minus and the number of the reason.
fn print(out: &mut impl Write, value: SymbolValue) -> io::Result<()> {
    match value {
        Ok(s) => tests_harness::then(out, s.0),
        Err(reason) => {
            let number = reason_number(reason);
            write!(out, " -{number}")
        }
    }
}
