// Reading a value out of a field.
// Instructions and data are numbers of up to 64 bits, as `numbers_bytes` reads them from bytes.
// Each format has a sum of its own: no function over a list of runs is as quick, or as close to the manual's drawing.
#![tactic(auto)]

ghost use Rattle.std.specs.Prelude.{◌≡◌};
ghost use Rattle.instructions_fields.specs.Layouts.{read, format_u, format_i, format_s, format_b, format_j, format_cb, format_cj};
ghost use Rattle.instructions_fields.specs.Fields.{layout, data_layout};

use instructions_fields::{Field, Width};

// imm[31:12]
#[tactic(auto, unfolding(instructions_fields::specs::Layouts::read))]
pub fn read_u(word: u64) -> u64
    ensures { result ≡ read format_u word }
{
    word / 0x1000 % 0x10_0000 * 0x1000
}

// imm[11:0]
#[tactic(auto, unfolding(instructions_fields::specs::Layouts::read))]
pub fn read_i(word: u64) -> u64
    ensures { result ≡ read format_i word }
{
    word / 0x10_0000 % 0x1000
}

// imm[4:0], imm[11:5]
#[tactic(auto, unfolding(instructions_fields::specs::Layouts::read))]
pub fn read_s(word: u64) -> u64
    ensures { result ≡ read format_s word }
{
    word / 0x80 % 0x20 + word / 0x200_0000 % 0x80 * 0x20
}

// imm[11], imm[4:1], imm[10:5], imm[12]
#[tactic(auto, unfolding(instructions_fields::specs::Layouts::read))]
pub fn read_b(word: u64) -> u64
    ensures { result ≡ read format_b word }
{
    word / 0x80 % 2 * 0x800
        + word / 0x100 % 0x10 * 2
        + word / 0x200_0000 % 0x40 * 0x20
        + word / 0x8000_0000 % 2 * 0x1000
}

// imm[19:12], imm[11], imm[10:1], imm[20]
#[tactic(auto, unfolding(instructions_fields::specs::Layouts::read))]
pub fn read_j(word: u64) -> u64
    ensures { result ≡ read format_j word }
{
    word / 0x1000 % 0x100 * 0x1000
        + word / 0x10_0000 % 2 * 0x800
        + word / 0x20_0000 % 0x400 * 2
        + word / 0x8000_0000 % 2 * 0x10_0000
}

// imm[5], imm[2:1], imm[7:6], imm[4:3], imm[8]
#[tactic(auto, unfolding(instructions_fields::specs::Layouts::read))]
pub fn read_cb(word: u64) -> u64
    ensures { result ≡ read format_cb word }
{
    word / 4 % 2 * 0x20
        + word / 8 % 4 * 2
        + word / 0x20 % 4 * 0x40
        + word / 0x400 % 4 * 8
        + word / 0x1000 % 2 * 0x100
}

// imm[5], imm[3:1], imm[7], imm[6], imm[10], imm[9:8], imm[4], imm[11]
#[tactic(auto, unfolding(instructions_fields::specs::Layouts::read))]
pub fn read_cj(word: u64) -> u64
    ensures { result ≡ read format_cj word }
{
    word / 4 % 2 * 0x20
        + word / 8 % 8 * 2
        + word / 0x40 % 2 * 0x80
        + word / 0x80 % 2 * 0x40
        + word / 0x100 % 2 * 0x400
        + word / 0x200 % 4 * 0x100
        + word / 0x800 % 2 * 0x10
        + word / 0x1000 % 2 * 0x800
}

// A data field: all of its bytes, or the low six bits of one.
// Every width is named, so that a new one has to be placed.
#[tactic(auto, unfolding(instructions_fields::specs::Layouts::read))]
pub fn read_data(width: Width, word: u64) -> u64
    ensures { result ≡ read (data_layout width) word }
{
    match width {
        Width::W6 => word % 0x40,
        Width::W8 => word % 0x100,
        Width::W16 => word % 0x1_0000,
        Width::W32 => word % 0x1_0000_0000,
        Width::W64 => word,
    }
}

// The value in a field.
pub fn read_field(field: Field, word: u64) -> u64
    ensures { result ≡ read (layout field) word }
{
    match field {
        Field::U => read_u(word),
        Field::I => read_i(word),
        Field::S => read_s(word),
        Field::B => read_b(word),
        Field::J => read_j(word),
        Field::Cb => read_cb(word),
        Field::Cj => read_cj(word),
        Field::Call => read_u(word) + read_i(word / 0x1_0000_0000),
        Field::Data(width) => read_data(width, word),
    }
}
