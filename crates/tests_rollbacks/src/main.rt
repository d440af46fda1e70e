// Runs rollbacks and saves over the cases of standard input. It writes a line for each: the number, and a checksum each
// of the image and the journal afterwards.
//
//     count        u32
//     each case    kind u32: 0 a rollback, 1 a save, 2 a rollback of what the case before left
//                  length of image u32, of journal u32; how many first bytes of each are given u32 u32; span u32 u32
//                  the bytes given; every other byte is its place modulo 251
#![tactic(auto)]

ghost use Rattle.std.specs.Prelude.{◌<◌, ◌^◌};

use journal_undo::RollbackRefusal;
use plan_pieces::Span;
use std::io;
use std::io::{BufReader, BufWriter, Read, Write};

fn main(rt: HostRuntime) -> io::Result<()> {
    let alloc = rt.alloc();
    let mut input = BufReader::new(alloc, rt.reader())?;
    let mut out = BufWriter::new(alloc, io::writer(&rt))?;
    let mut images = vec![in alloc; 0u8; 1_114_112]?;
    let mut journals = vec![in alloc; 0u8; 1_114_112]?;
    let count = number(&mut input)?;
    run(&mut input, &mut out, &mut images, &mut journals, count)?;
    out.flush()
}

fn run(
    input: &mut impl Read,
    out: &mut impl Write,
    images: &mut [u8],
    journals: &mut [u8],
    count: u32,
) -> io::Result<()> {
    for _ in 0..count {
        case(input, out, images, journals)?;
    }
    Ok(())
}

// The next four bytes of standard input, as a number.
fn number(input: &mut impl Read) -> io::Result<u32> {
    let mut b = [0u8; 4];
    tests_harness::read_full(input, &mut b)?;
    Ok(numbers_bytes::read::<u32>(&b, 0))
}

// One case, if the spaces are long enough for it.
fn case(
    input: &mut impl Read,
    out: &mut impl Write,
    images: &mut [u8],
    journals: &mut [u8],
) -> io::Result<()> {
    let kind = number(input)?;
    let m = number(input)? as usize;
    let n = number(input)? as usize;
    let first = number(input)? as usize;
    let second = number(input)? as usize;
    let start = number(input)?;
    let size = number(input)?;
    let span = Span { start, size };
    let Some(image) = images.get_mut(..m) else {
        return Ok(());
    };
    let Some(book) = journals.get_mut(..n) else {
        return Ok(());
    };
    if kind < 2 {
        fill(input, image, first)?;
        fill(input, book, second)?;
    }
    answer(out, kind, image, book, span)
}

// The line of a case. `kind` is the input's number: 1 asks for a save, 0 and 2 for a rollback.
fn answer(
    out: &mut impl Write,
    kind: u32,
    image: &mut [u8],
    book: &mut [u8],
    span: Span,
) -> io::Result<()> {
    let number = if kind == 1 {
        saved(image, book, span)
    } else {
        rolled_back(image, book)
    };
    line(out, number, checksum(image), checksum(book))
}

// The first bytes from standard input, the others by their places.
fn fill(input: &mut impl Read, s: &mut [u8], given: usize) -> io::Result<()> {
    for (i, b) in s.iter_mut().enumerate() {
        *b = (i % 251) as u8;
    }
    match s.get_mut(..given) {
        Some(part) => tests_harness::read_full(input, part),
        None => Ok(()),
    }
}

// The number of a rollback's answer, as the output has it.
fn rolled_back(image: &mut [u8], book: &mut [u8]) -> u64 {
    match journal_undo::rollback(image, book) {
        Ok(()) => 0,
        Err(RollbackRefusal::JournalUnsound) => 1,
        Err(RollbackRefusal::ImageTooLong) => 3,
        Err(RollbackRefusal::NothingStands) => 16,
    }
}

// The number of a save's answer, as the output has it, after the checks of an install. 255 stands for a span outside the image.
fn saved(image: &[u8], book: &mut [u8], span: Span) -> u64 {
    if !journal_format::is_sound(book, image.len()) {
        return 1;
    }
    if !order_format::length_allowed(image.len()) {
        return 3;
    }
    if image.len() < span.start as usize + span.size as usize {
        return 255;
    }
    if !journal_format::has_room(book, span.size) {
        return 15;
    }
    journal_undo::save(image, book, span);
    0
}

// The bytes as the digits of a number, modulo a prime.
fn checksum(s: &[u8]) -> u64
    ensures { result < 2 ^ 32 }
{
    let mut sum: u64 = 0;
    for b in s {
        sum = (65599 * sum + u64::from(*b) + 1) % 4294967291;
    }
    sum
}

fn line(out: &mut impl Write, answer: u64, image: u64, book: u64) -> io::Result<()> {
    writeln!(out, "{answer} {image:08x} {book:08x}")
}
