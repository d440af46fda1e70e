// Runs the functions of `instructions_encode`, `instructions_decode`, `instructions_riscv` and `relocations_types` over
// fixed inputs. It writes a line for each case: what goes in and what comes out, in hexadecimal.
#![tactic(auto)]

mod choices;
mod lines;

use std::io;
use std::io::{BufWriter, Write};
use tests_harness::Lines;

// Each kind of line begins with a letter of its own. Those of data come twice: at the edges of each width, and at numbers of
// the sequence.
fn main(rt: HostRuntime) -> io::Result<()> {
    let mut out = BufWriter::new(rt.alloc(), io::writer(&rt))?;
    run(
        &mut out,
        416,
        |out, i, a, b| lines::field(out, i % 13, a, b),
    )?;
    run(&mut out, 64, |out, _, a, _| {
        lines::half(out, (a % 0x1_0000_0000) as u32)
    })?;
    run(&mut out, 512, |out, i, _, _| {
        lines::decision(out, i < 256, (i % 256) as u8)
    })?;
    run(&mut out, 125, |out, i, _, _| edges(out, i))?;
    run(&mut out, 40, |out, i, a, b| {
        lines::data(out, i % 5, a, b)
    })?;
    run(
        &mut out,
        56,
        |out, i, _, _| lines::reach(out, i / 14, i % 14),
    )?;
    run(&mut out, 192, |out, i, a, b| {
        let opcode = choices::OPCODES[(i / 16 % 12) as usize];
        lines::forms(out, choices::word(opcode, a), choices::word(0x67, b))
    })?;
    out.flush()
}

// Lines of one kind, by their numbers from 0 on, each with two numbers of a fixed sequence.
fn run<F>(out: &mut Lines<'_>, count: u64, mut line: F) -> io::Result<()>
where
    F: FnMut(&mut Lines<'_>, u64, u64, u64) -> io::Result<()>,
    requires { F.IsAlwaysCallable line }
{
    let mut x: u64 = 0x9e37_79b9_7f4a_7c15;
    for i in 0..count {
        let a = next(x);
        x = next(a);
        line(out, i, a, x)?;
    }
    Ok(())
}

// The next number of the sequence (xorshift of 64 bits).
fn next(x: u64) -> u64 {
    let a = x ^ (x << 13);
    let b = a ^ (a >> 7);
    b ^ (b << 17)
}

// Two edges of a width: each width with each pair of them.
fn edges(out: &mut impl Write, i: u64) -> io::Result<()> {
    let number = i / 25 % 5;
    let edges = choices::edges(choices::WIDTHS[number as usize]);
    lines::data(
        out,
        number,
        edges[(i / 5 % 5) as usize],
        edges[(i % 5) as usize],
    )
}
