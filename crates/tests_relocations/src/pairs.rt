// r: the first of checks 4, 2, 3 and 5 to 14 that an object and an order break. If they break none, the bytes of the
// loaded sections after relocation.
ghost use Rattle.std.specs.Prelude.{◌≡◌, true, ◌<◌, length};
ghost use Rattle.elf_read.specs.Headers.{class_of, section_count};
ghost use Rattle.elf_read.specs.Sections.{section_at, loaded};
ghost use Rattle.elf_header.specs.Headers.{header_allowed, max_object};
ghost use Rattle.order_lookup.specs.Addresses.{addresses_for};
ghost use Rattle.calls_judgement.specs.Requires.{Placeable};
ghost use Rattle.tests_relocations.specs.Requires.{Layable};

use super::lines;
use calls_judge::Refusal;
use elf_check::MAX_RELOCATIONS;
use elf_header::MAX_OBJECT;
use elf_read::MAX_SECTIONS;
use order_format::Order;
use order_lookup::Addresses;
use std::io;
use std::io::Write;

pub fn line(out: &mut impl Write, object: &[u8], order: &[u8], len: usize) -> io::Result<()> {
    if elf_header::check_header(object) {
        read(out, object, order, len)?;
    } else {
        write(out, Err(Refusal::BadHeader))?;
    }
    tests_harness::end(out)
}

// Check 2. The object's class says how the order is read.
fn read(out: &mut impl Write, object: &[u8], order: &[u8], len: usize) -> io::Result<()>
    requires { header_allowed object.now ≡ true }
{
    match Order::read(elf_read::class_of(object), order) {
        None => write(out, Err(Refusal::OrderMalformed)),
        Some(order) => judged(out, object, &order, len),
    }
}

fn write(out: &mut impl Write, answer: Result<(), Refusal>) -> io::Result<()> {
    let code = calls_judge::code_of(answer);
    tests_harness::answer(out, code % 256, code / 4294967296)?;
    let reason = code / 256 % 256;
    write!(out, " {reason}")
}

fn judged(out: &mut impl Write, object: &[u8], order: &Order<'_>, len: usize) -> io::Result<()>
    requires { (header_allowed object.now ≡ true) × (order.now.class ≡ class_of object.now) }
{
    match calls_judge::judge_sections(object, order, len, [0u64; MAX_SECTIONS]) {
        Ok(array) => relocations(out, object, order, len, array),
        Err(refusal) => write(out, Err(refusal)),
    }
}

// Checks 9 to 14.
fn relocations(
    out: &mut impl Write,
    object: &[u8],
    order: &Order<'_>,
    len: usize,
    array: Addresses,
) -> io::Result<()>
    requires { Placeable object.now order.now.bytes.now order.now.counts len × (order.now.class ≡ class_of object.now) × (array ≡ addresses_for object.now order.now.bytes.now) }
{
    let mut highs = [0u32; MAX_RELOCATIONS];
    let mut words = [0u64; MAX_RELOCATIONS];
    let mut sizes = [0u8; MAX_RELOCATIONS];
    match calls_judge::judge_relocations(
        object, order, len, array, &mut highs, &mut words, &mut sizes,
    ) {
        Ok(array) => {
            write(out, Ok(()))?;
            passed(out, object, order.bytes, array, &words, &sizes)
        }
        Err(refusal) => write(out, Err(refusal)),
    }
}

// The loaded sections, one after the other in the same room. Each finds there what those before it left.
fn passed(
    out: &mut impl Write,
    object: &[u8],
    order: &[u8],
    array: Addresses,
    words: &[u64],
    sizes: &[u8],
) -> io::Result<()>
    requires { Layable object.now order.now array words.now sizes.now }
{
    let mut room = [0u8; MAX_OBJECT];
    sections(out, object, order, array, words, sizes, &mut room)
}

fn sections(
    out: &mut impl Write,
    object: &[u8],
    order: &[u8],
    array: Addresses,
    words: &[u64],
    sizes: &[u8],
    room: &mut [u8],
) -> io::Result<()>
    requires { Layable object.now order.now array words.now sizes.now × (length room.old ≡ max_object) }
{
    let n = elf_read::section_count(object);
    for t in 0..n {
        section(out, object, order, array, words, sizes, t, room)?;
    }
    Ok(())
}

// Section t, if it is loaded and has bytes.
fn section(
    out: &mut impl Write,
    object: &[u8],
    order: &[u8],
    array: Addresses,
    words: &[u64],
    sizes: &[u8],
    t: usize,
    room: &mut [u8],
) -> io::Result<()>
    requires { Layable object.now order.now array words.now sizes.now × (t < section_count object.now) × (length room.old ≡ max_object) }
{
    let h = elf_read::read_section(object, t);
    if elf_read::is_loaded(h) & (0 < h.size) {
        lay(
            out,
            object,
            order,
            array,
            words,
            sizes,
            t,
            &mut room[0..h.size as usize],
        )?;
    }
    Ok(())
}

fn lay(
    out: &mut impl Write,
    object: &[u8],
    order: &[u8],
    array: Addresses,
    words: &[u64],
    sizes: &[u8],
    t: usize,
    part: &mut [u8],
) -> io::Result<()>
    requires { Layable object.now order.now array words.now sizes.now × (t < section_count object.now) × (loaded (section_at object.now t) ≡ true) × (length part.old ≡ (section_at object.now t).size) }
{
    let mut relas = [None; MAX_SECTIONS];
    relocations_apply::index_relas(object, &mut relas);
    relocations_apply::lay_section(object, order, &array, words, sizes, &relas, t, part);
    lines::section(out, t, part)
}
