// r and R: check 2 of an order for class 1, for class 2. If it is well formed, a digest for each function that reads it.
ghost use Rattle.std.specs.Prelude.{◌+◌, ◌*◌, ◌≤◌, length};
ghost use Rattle.order_format.specs.Orders.{entry_size};

use super::{digest, lines};
use elf_read::MAX_SECTIONS;
use numbers_definitions::{Address, Class};
use order_format::Order;
use order_lookup::Addresses;
use std::io;
use std::io::Write;

pub fn line(out: &mut impl Write, class: Class, s: &[u8]) -> io::Result<()> {
    if let Some(order) = Order::read(class, s) {
        well_formed(out, &order)?;
    } else {
        lines::answer(out, lines::letter(class, b'r', b'R'), 2, 0)?;
    }
    tests_harness::end(out)
}

fn well_formed(out: &mut impl Write, order: &Order<'_>) -> io::Result<()> {
    lines::answer(out, lines::letter(order.class, b'r', b'R'), 0, 0)?;
    tests_harness::then(out, order.counts.base.0)?;
    tests_harness::then(out, order.counts.placements as u64)?;
    tests_harness::then(out, order.counts.externals as u64)?;
    digests(out, order)
}

// Both lists; the array; and the values of numbers that are in the lists and of numbers that are not.
fn digests(out: &mut impl Write, order: &Order<'_>) -> io::Result<()> {
    let counts = order.counts;
    let first = order_format::placements_start(order.class);
    let start = order_format::externals_start(order.class, counts.placements);
    tests_harness::then(out, entries(order, first, counts.placements))?;
    tests_harness::then(out, entries(order, start, counts.externals))?;
    let array = order_lookup::fill_addresses([0u64; MAX_SECTIONS], order);
    tests_harness::then(out, addresses(array))?;
    tests_harness::then(out, low_values(order))?;
    tests_harness::then(out, near_values(order, first, counts.placements))?;
    tests_harness::then(out, near_values(order, start, counts.externals))
}

fn entries(order: &Order<'_>, at: usize, n: usize) -> u64
    requires { at + entry_size order.now.class * n ≤ length order.now.bytes.now }
{
    let mut d = digest::START;
    for i in 0..n {
        let e = order_format::read_entry(order.class, order.bytes, at, i);
        d = digest::numbers(d, &[u64::from(e.index), e.value.0]);
    }
    d
}

fn addresses(array: Addresses) -> u64 {
    digest::numbers(digest::START, &array)
}

// The values of the numbers 0 to 129.
fn low_values(order: &Order<'_>) -> u64 {
    let mut d = digest::START;
    for k in 0..130 {
        d = values(d, order, k);
    }
    d
}

// The values of each number in a list, of the number before it, and of the number after it.
fn near_values(order: &Order<'_>, at: usize, n: usize) -> u64
    requires { at + entry_size order.now.class * n ≤ length order.now.bytes.now }
{
    let mut d = digest::START;
    for i in 0..n {
        let e = order_format::read_entry(order.class, order.bytes, at, i);
        let k = e.index;
        d = values(d, order, k.wrapping_sub(1));
        d = values(d, order, k);
        d = values(d, order, k.wrapping_add(1));
    }
    d
}

// What an order gives a number as a section and as a symbol.
fn values(digest: u64, order: &Order<'_>, k: u32) -> u64 {
    let d = value(digest, order_lookup::placed_at(order, k));
    value(d, order_lookup::external_value(order, k))
}

fn value(digest: u64, v: Option<Address>) -> u64 {
    digest::mix(digest, v.map_or(0x1_0000_0000, |x| x.0))
}
