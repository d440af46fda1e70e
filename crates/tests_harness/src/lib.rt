// What the compared programs share: reading commands, and writing lines.
//
// The input is commands of thirteen bytes each: a letter and three numbers, a, b and c. The first one only says, in a,
// how many follow. `s` stores the b bytes that come after it in the program's space at a; the other letters ask about
// what is there.
#![tactic(auto)]

use std::io;
use std::io::{BufReader, BufWriter, ErrorKind, Printer, Read, Write};

// Where a program writes its lines.
pub type Lines<'a> = BufWriter<Printer<'a, HostRuntime>>;

// Where the order of a pair is in the space.
const ORDER: usize = 1_048_640;

// The space that an object and an order take: the longest object and 64 bytes more, and then 102,400 bytes for the order.
pub const PAIR: usize = 1_151_040;

#[derive(Clone, Copy)]
pub struct Command {
    pub letter: u8,
    pub a: u32,
    pub b: u32,
    pub c: u32,
}

// Carries out the commands of standard input, over a space of `size` bytes. `ask` answers those that do not store.
pub fn run<F>(rt: HostRuntime, size: usize, mut ask: F) -> io::Result<()>
where
    F: FnMut(&mut Lines<'_>, &[u8], Command) -> io::Result<()>,
    requires { F.IsAlwaysCallable ask }
{
    let alloc = rt.alloc();
    let mut input = BufReader::new(alloc, rt.reader())?;
    let mut out = BufWriter::new(alloc, io::writer(&rt))?;
    let mut space = vec![in alloc; 0u8; size]?;
    let first = next(&mut input)?;
    for _ in 0..first.a {
        let command = next(&mut input)?;
        if command.letter == b's' {
            store(&mut input, &mut space, command)?;
        } else {
            ask(&mut out, &space, command)?;
        }
    }
    out.flush()
}

// The object and the order of a command, or nothing if the space does not have them: the first a bytes are the object,
// and b bytes from `ORDER` on are the order.
pub fn pair(space: &[u8], command: Command) -> Option<(&[u8], &[u8])> {
    let (objects, orders) = space.split_at_checked(ORDER)?;
    Some((
        objects.get(..command.a as usize)?,
        orders.get(..command.b as usize)?,
    ))
}

// The next command, or zeros if the input has ended.
fn next(input: &mut impl Read) -> io::Result<Command> {
    let mut text = [0u8; 13];
    read_full(input, &mut text)?;
    Ok(parse(&text))
}

fn parse(text: &[u8; 13]) -> Command {
    Command {
        letter: text[0],
        a: numbers_bytes::read(text, 1),
        b: numbers_bytes::read(text, 5),
        c: numbers_bytes::read(text, 9),
    }
}

// Reads until `buf` is full or the input has ended. What was not read is left as it was.
pub fn read_full(input: &mut impl Read, buf: &mut [u8]) -> io::Result<()> {
    match input.read_exact(buf) {
        Ok(()) => Ok(()),
        Err(e) if e.kind() == ErrorKind::UnexpectedEof => Ok(()),
        Err(e) => Err(e),
    }
}

// Stores the bytes that follow. A command that would write outside the space does nothing.
fn store(input: &mut impl Read, space: &mut [u8], command: Command) -> io::Result<()> {
    let at = command.a as usize;
    match space.get_mut(at..at + command.b as usize) {
        Some(part) => read_full(input, part),
        None => Ok(()),
    }
}

// The number and the place of an answer, in decimal.
pub fn answer(out: &mut impl Write, number: u64, place: u64) -> io::Result<()> {
    write!(out, "{number} {place}")
}

// A further number of the line, in hexadecimal.
pub fn then(out: &mut impl Write, n: u64) -> io::Result<()> {
    write!(out, " {n:x}")
}

pub fn end(out: &mut impl Write) -> io::Result<()> {
    writeln!(out)
}
