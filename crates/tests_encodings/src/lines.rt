// The lines: numbers in hexadecimal, with a space before each but the first.
use super::choices;
use instructions_fields::Field;
use instructions_riscv::forms::has_form;
use instructions_riscv::ranges::{Range, in_reach, keeps_alignment};
use instructions_riscv::{data, halves};
use numbers_arithmetic::difference;
use numbers_definitions::Class;
use relocations_types::{Calculation, Decision, Rule};
use std::io;
use std::io::Write;
use tests_harness::{end, then};

fn first(out: &mut impl Write, kind: u8, n: u64) -> io::Result<()> {
    out.write_all(&[kind])?;
    then(out, n)
}

fn flag(out: &mut impl Write, b: bool) -> io::Result<()> {
    then(out, b as u64)
}

// f: a field, a word, a value, the word with the value put in, and what the word holds.
pub fn field(out: &mut impl Write, number: u64, word: u64, value: u64) -> io::Result<()> {
    let field = choices::FIELDS[(number % 13) as usize];
    first(out, b'f', number)?;
    then(out, word)?;
    then(out, value)?;
    then(out, instructions_encode::put_field(field, word, value))?;
    then(out, instructions_decode::read_field(field, word))?;
    end(out)
}

// h: a number and its halves.
pub fn half(out: &mut impl Write, x: u32) -> io::Result<()> {
    let x = u64::from(x);
    first(out, b'h', x)?;
    then(out, halves::hi20(Class::Elf32, x))?;
    then(out, halves::lo12(x))?;
    end(out)
}

// t: a type, whether bit 0 of e_flags is set, and then 0 for a marker, 1 for ALIGN, 3 for a refusal, or 2 with its rule.
pub fn decision(out: &mut impl Write, rvc: bool, number: u8) -> io::Result<()> {
    first(out, b't', u64::from(number))?;
    flag(out, rvc)?;
    match relocations_types::decide(Class::Elf32, rvc, u32::from(number)) {
        Decision::Marker => then(out, 0),
        Decision::Align => then(out, 1),
        Decision::Store(asked) => rule(out, asked),
        Decision::Refused => then(out, 3),
    }?;
    end(out)
}

// A rule: calculation, field, form, bytes, and 1 for a high half that pairs.
fn rule(out: &mut impl Write, asked: Rule) -> io::Result<()> {
    then(out, 2)?;
    calculated(out, asked.calculation)?;
    then(out, field_number(asked.field))?;
    then(out, asked.form as u64)?;
    then(out, asked.size as u64)?;
    then(out, asked.role as u64)
}

// A calculation: the part and the operand, or 5 for ADD, 6 for SUB, 7 for SET.
fn calculated(out: &mut impl Write, calculation: Calculation) -> io::Result<()> {
    match calculation {
        Calculation::Of(part, operand) => {
            then(out, part as u64)?;
            then(out, operand as u64)
        }
        Calculation::Add => then(out, 5),
        Calculation::Sub => then(out, 6),
        Calculation::Set => then(out, 7),
    }
}

// d: a width, the field's word, S + A, and the word after ADD, SUB and SET.
pub fn data(out: &mut impl Write, number: u64, v: u64, x: u64) -> io::Result<()> {
    let width = choices::WIDTHS[(number % 5) as usize];
    first(out, b'd', number)?;
    then(out, v)?;
    then(out, x)?;
    then(out, data::add(width, v, x))?;
    then(out, data::sub(width, v, x))?;
    then(out, data::set(width, v, x))?;
    end(out)
}

// r: a range, a target, an address, whether the target is reached from the address, in each class, and whether the distance keeps the
// alignment where bit 0 of e_flags is clear.
pub fn reach(out: &mut impl Write, number: u64, place: u64) -> io::Result<()> {
    let ends = choices::range(number);
    let jump = choices::case(ends, place);
    first(out, b'r', number)?;
    then(out, jump.t.0)?;
    then(out, jump.p.0)?;
    flag(out, reached(Class::Elf32, ends, jump))?;
    flag(out, reached(Class::Elf64, ends, jump))?;
    flag(out, aligned(jump))?;
    end(out)
}

fn reached(class: Class, ends: Range, jump: choices::Jump) -> bool {
    in_reach(class, ends, difference(class, jump.t.0, jump.p.0))
}

fn aligned(jump: choices::Jump) -> bool {
    keeps_alignment(false, difference(Class::Elf32, jump.t.0, jump.p.0))
}

// i: a word, the next one, and which forms they have.
pub fn forms(out: &mut impl Write, word: u64, next: u64) -> io::Result<()> {
    first(out, b'i', word)?;
    then(out, next)?;
    for form in choices::FORMS {
        flag(out, has_form(Class::Elf32, form, word, next))?;
    }
    end(out)
}

// A field's place among those that the lines of `f` go through. A field may hold a width, so that no cast gives this number, and
// `From` is not allowed here: neither type is this crate's.
fn field_number(field: Field) -> u64 {
    match field {
        Field::U => 0,
        Field::I => 1,
        Field::S => 2,
        Field::B => 3,
        Field::J => 4,
        Field::Cb => 5,
        Field::Cj => 6,
        Field::Call => 7,
        Field::Data(width) => 8 + width as u64,
    }
}
