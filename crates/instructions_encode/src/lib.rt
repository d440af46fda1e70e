// Putting a value into a field.
// Instructions and data are numbers of up to 64 bits, as `numbers_bytes` reads them from bytes.
// Each format has a sum of its own: no function over a list of runs is as quick, or as close to the manual's drawing.
#![tactic(auto)]

ghost use Rattle.std.specs.Prelude.{◌≡◌};
ghost use Rattle.instructions_fields.specs.Layouts.{put, format_u, format_i, format_s, format_b, format_j, format_cb, format_cj};
ghost use Rattle.instructions_fields.specs.Fields.{layout, data_layout};

use instructions_fields::{Field, Width};
use instructions_table::cj_field;

// imm[31:12]
#[tactic(auto, unfolding(instructions_fields::specs::Layouts::put))]
pub fn put_u(word: u64, value: u64) -> u64
    ensures { result ≡ put format_u word value }
{
    word % 0x1000 + value / 0x1000 % 0x10_0000 * 0x1000
}

// imm[11:0]
#[tactic(auto, unfolding(instructions_fields::specs::Layouts::put))]
pub fn put_i(word: u64, value: u64) -> u64
    ensures { result ≡ put format_i word value }
{
    word % 0x10_0000 + value % 0x1000 * 0x10_0000
}

// imm[4:0], imm[11:5]
#[tactic(auto, unfolding(instructions_fields::specs::Layouts::put))]
pub fn put_s(word: u64, value: u64) -> u64
    ensures { result ≡ put format_s word value }
{
    word % 0x80
        + value % 0x20 * 0x80
        + word / 0x1000 % 0x2000 * 0x1000
        + value / 0x20 % 0x80 * 0x200_0000
}

// imm[11], imm[4:1], imm[10:5], imm[12]
#[tactic(auto, unfolding(instructions_fields::specs::Layouts::put))]
pub fn put_b(word: u64, value: u64) -> u64
    ensures { result ≡ put format_b word value }
{
    word % 0x80
        + value / 0x800 % 2 * 0x80
        + value / 2 % 0x10 * 0x100
        + word / 0x1000 % 0x2000 * 0x1000
        + value / 0x20 % 0x40 * 0x200_0000
        + value / 0x1000 % 2 * 0x8000_0000
}

// imm[19:12], imm[11], imm[10:1], imm[20]
#[tactic(auto, unfolding(instructions_fields::specs::Layouts::put))]
pub fn put_j(word: u64, value: u64) -> u64
    ensures { result ≡ put format_j word value }
{
    word % 0x1000
        + value / 0x1000 % 0x100 * 0x1000
        + value / 0x800 % 2 * 0x10_0000
        + value / 2 % 0x400 * 0x20_0000
        + value / 0x10_0000 % 2 * 0x8000_0000
}

// imm[5], imm[2:1], imm[7:6], imm[4:3], imm[8]
#[tactic(auto, unfolding(instructions_fields::specs::Layouts::put))]
pub fn put_cb(word: u64, value: u64) -> u64
    ensures { result ≡ put format_cb word value }
{
    word % 4
        + value / 0x20 % 2 * 4
        + value / 2 % 4 * 8
        + value / 0x40 % 4 * 0x20
        + word / 0x80 % 8 * 0x80
        + value / 8 % 4 * 0x400
        + value / 0x100 % 2 * 0x1000
        + word / 0x2000 % 8 * 0x2000
}

// imm[5], imm[3:1], imm[7], imm[6], imm[10], imm[9:8], imm[4], imm[11], from the table. Bit 0 of a distance is not among them.
pub fn put_cj(word: u64, value: u64) -> u64
    ensures { result ≡ put format_cj word value }
{
    let half = value / 2 % 0x800;
    word % 4 + cj_field(half as usize) as u64 + word / 0x2000 % 8 * 0x2000
}

// A data field: all of its bytes, or the low six bits of one. Every width is named, so that a new one has to be placed.
#[tactic(auto, unfolding(instructions_fields::specs::Layouts::put))]
pub fn put_data(width: Width, word: u64, value: u64) -> u64
    ensures { result ≡ put (data_layout width) word value }
{
    match width {
        Width::W6 => value % 0x40 + word / 0x40 % 4 * 0x40,
        Width::W8 => value % 0x100,
        Width::W16 => value % 0x1_0000,
        Width::W32 => value % 0x1_0000_0000,
        Width::W64 => value,
    }
}

// The bytes of a field, as one number, with a value put in.
pub fn put_field(field: Field, word: u64, value: u64) -> u64
    ensures { result ≡ put (layout field) word value }
{
    match field {
        Field::U => put_u(word, value),
        Field::I => put_i(word, value),
        Field::S => put_s(word, value),
        Field::B => put_b(word, value),
        Field::J => put_j(word, value),
        Field::Cb => put_cb(word, value),
        Field::Cj => put_cj(word, value),
        Field::Call => { put_u(word, value) + put_i(word / 0x1_0000_0000, value) * 0x1_0000_0000 }
        Field::Data(width) => put_data(width, word, value),
    }
}
