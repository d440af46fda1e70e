// The inputs: fields, widths, ranges and words by number.
use instructions_fields::{Field, Width};
use instructions_riscv::forms::Form;
use instructions_riscv::ranges::{Range, range_of};
use numbers_definitions::Address;

pub const WIDTHS: [Width; 5] = [Width::W6, Width::W8, Width::W16, Width::W32, Width::W64];

pub const FIELDS: [Field; 13] = [
    Field::U,
    Field::I,
    Field::S,
    Field::B,
    Field::J,
    Field::Cb,
    Field::Cj,
    Field::Call,
    Field::Data(Width::W6),
    Field::Data(Width::W8),
    Field::Data(Width::W16),
    Field::Data(Width::W32),
    Field::Data(Width::W64),
];

pub const FORMS: [Form; 10] = [
    Form::Any,
    Form::Lui,
    Form::Auipc,
    Form::Jal,
    Form::Branch,
    Form::LowI,
    Form::LowS,
    Form::CallPair,
    Form::CBranch,
    Form::CJump,
];

// The opcodes of the forms, and two with the low bits of a 16-bit instruction.
pub const OPCODES: [u8; 12] = [
    0x03, 0x07, 0x13, 0x17, 0x23, 0x27, 0x37, 0x63, 0x67, 0x6f, 0x01, 0x41,
];

// The fields of the jumps and branches.
const JUMPS: [Field; 4] = [Field::B, Field::J, Field::Cb, Field::Cj];

// The largest number of a width.
// Every width is named.
fn top(width: Width) -> u64 {
    match width {
        Width::W6 => 0x3f,
        Width::W8 => 0xff,
        Width::W16 => 0xffff,
        Width::W32 => 0xffff_ffff,
        Width::W64 => 0xffff_ffff_ffff_ffff,
    }
}

// A width's edges.
pub fn edges(width: Width) -> [u64; 5] {
    [
        0,
        1,
        top(width),
        0x8000_0000_0000_0000,
        0xffff_ffff_ffff_ffff,
    ]
}

// The range of a jump or branch.
pub fn range(number: u64) -> Range {
    range_of(JUMPS[(number % 4) as usize])
}

// A jump's target and its own address.
#[derive(Clone, Copy)]
pub struct Jump {
    pub t: Address,
    pub p: Address,
}

// Jumps to each end of the range, one byte and two bytes past it, and to themselves: from the middle of class 1's addresses, and
// then from 0, where those back lead across the top.
pub fn case(ends: Range, number: u64) -> Jump {
    let p: u32 = if number < 7 { 0x8000_0000 } else { 0 };
    let last = p.wrapping_add((ends.ahead % 0x1_0000_0000) as u32);
    let first = p.wrapping_sub((ends.back % 0x1_0000_0000) as u32);
    let targets = [
        last,
        last.wrapping_add(1),
        last.wrapping_add(2),
        first,
        first.wrapping_sub(1),
        first.wrapping_sub(2),
        p,
    ];
    Jump {
        t: Address(u64::from(targets[(number % 7) as usize])),
        p: Address(u64::from(p)),
    }
}

// A funct3, which is often 0.
fn funct3(x: u64) -> u8 {
    if x % 2 == 0 {
        return 0;
    }
    (x / 2 % 8) as u8
}

// A word with this opcode. Its rd and rs1 are 0 or 1, so that the registers of a pair often match.
pub fn word(opcode: u8, x: u64) -> u64 {
    let rest = x / 0x40 % 0x1000;
    u64::from(opcode)
        + x % 2 * 0x80
        + u64::from(funct3(x / 2)) * 0x1000
        + x / 0x20 % 2 * 0x8000
        + rest * 0x10_0000
}
