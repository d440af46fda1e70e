// Reads objects and orders that its input gives. It writes a line for each: what the functions of `elf_read`,
// `elf_header`, `elf_check`, `order_format` and `order_lookup` find in it.
//
//     o       the first a bytes are an object
//     r, R    the first a bytes are an order for class 1, for class 2
//     w, W    a window of base a + 2^32 * c and length b for class 1, for class 2
#![tactic(auto)]

mod digest;
mod lines;
mod objects;
mod orders;

use numbers_definitions::{Address, Class};
use std::io;
use std::io::Write;
use tests_harness::Command;

// How many bytes the commands may store.
const SPACE: usize = 1_048_640;

fn main(rt: HostRuntime) -> io::Result<()> {
    tests_harness::run(rt, SPACE, |out, space, command| step(out, space, command))
}

fn step(out: &mut impl Write, space: &[u8], c: Command) -> io::Result<()> {
    let a = c.a as usize;
    let b = c.b as usize;
    match c.letter {
        b'o' => object(out, space, a),
        b'r' => order(out, Class::Elf32, space, a),
        b'R' => order(out, Class::Elf64, space, a),
        b'w' => lines::window(out, Class::Elf32, base(c.a, c.c), b),
        _ => lines::window(out, Class::Elf64, base(c.a, c.c), b),
    }
}

// A base, by its halves.
fn base(low: u32, high: u32) -> Address {
    Address(u64::from(low) + 4294967296 * u64::from(high))
}

fn object(out: &mut impl Write, space: &[u8], length: usize) -> io::Result<()> {
    match space.get(..length) {
        Some(object) => objects::line(out, object),
        None => Ok(()),
    }
}

fn order(out: &mut impl Write, class: Class, space: &[u8], length: usize) -> io::Result<()> {
    match space.get(..length) {
        Some(order) => orders::line(out, class, order),
        None => Ok(()),
    }
}
