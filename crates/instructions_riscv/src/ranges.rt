// How far jumps and branches reach.
ghost use Rattle.std.specs.Prelude.{◌≡◌, ◌^◌, ◌<◌, pos};
ghost use Rattle.numbers_definitions.specs.Classes.{bits};
ghost use Rattle.numbers_definitions.specs.Whole.{signed};
ghost use Rattle.instructions_riscv.specs.Ranges.{anywhere, range_of, reaches, keeps_alignment, halves_reach};

use instructions_fields::Field;
use numbers_definitions::Class;

// Distances from -back to ahead.
#[derive(Clone, Copy)]
pub struct Range {
    pub back: u64,
    pub ahead: u64,
}

// The range of the jump or branch that has this field. For every other field it is all distances, as `anywhere` in `specs/` says,
// and no Option: who asks needs no case for a field without a range.
pub fn range_of(field: Field) -> Range
    ensures { result ≡ range_of field }
{
    match field {
        Field::B => Range {
            back: 4096,
            ahead: 4094,
        },
        Field::J => Range {
            back: 1048576,
            ahead: 1048574,
        },
        Field::Cb => Range {
            back: 256,
            ahead: 254,
        },
        Field::Cj => Range {
            back: 2048,
            ahead: 2046,
        },
        Field::U => every_distance(),
        Field::I => every_distance(),
        Field::S => every_distance(),
        Field::Call => every_distance(),
        Field::Data(_) => every_distance(),
    }
}

// The range of all distances between two addresses.
fn every_distance() -> Range
    ensures { result ≡ anywhere }
{
    Range {
        back: 0xffff_ffff_ffff_ffff,
        ahead: 0xffff_ffff_ffff_ffff,
    }
}

// Whether a distance is even and within a range. d is the distance modulo 2^w; read as signed, it is ahead or back, whichever is
// nearer.
pub fn in_reach(class: Class, range: Range, d: u64) -> bool
    ensures { d < 2 ^ bits class → result ≡ reaches range (signed (bits class) d) }
{
    let back = numbers_arithmetic::difference(class, 0, d);
    if d < back {
        (d % 2 == 0) & (d <= range.ahead)
    } else {
        (back % 2 == 0) & (back <= range.back)
    }
}

// Whether a distance leads from an instruction's boundary to another: `rvc` says that instructions of 16 bits are allowed.
#[tactic(auto, unfolding(crate::specs::Ranges::keeps_alignment))]
pub fn keeps_alignment(rvc: bool, d: u64) -> bool
    ensures { result ≡ keeps_alignment rvc (pos d) }
{
    rvc | (d % 4 == 0)
}

// Whether two halves make up an address or a distance. In class 1 they always do. In class 2 it is from -2,147,485,696 to
// 2,147,481,599, which is one comparison after 2,147,485,696 is added modulo 2^64.
#[tactic(auto, using(crate::proofs::Laws::Ranges::halves_compared))]
pub fn in_halves_reach(class: Class, v: u64) -> bool
    ensures { result ≡ halves_reach class v }
{
    match class {
        Class::Elf32 => true,
        Class::Elf64 => numbers_arithmetic::add64(v, 2147485696) <= 4294967295,
    }
}
