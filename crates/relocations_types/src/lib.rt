// The decision from a relocation's type number to its calculation, field and width, or a refusal.
#![tactic(auto)]

ghost use Rattle.std.specs.Prelude.{◌≡◌, not, cond, eqb};
ghost use Rattle.relocations_types.specs.Types.{of as «of-operand», word as «the_word», jump as «the-jump», pairing as «the-pairing», stacking as «the-stacking», pairing_type, lines_of, lookup, decision};

use instructions_fields::{Field, Width};
use instructions_riscv::forms::Form;
use numbers_definitions::Class;

// What is calculated with. T is the symbol's value with the addend, and P is the place's address.
#[derive(Clone, Copy)]
pub enum Operand {
    // T
    Absolute,
    // T - P
    PcRelative,
    // the paired high half's T - P
    Paired,
}

// Which part of it is stored.
#[derive(Clone, Copy)]
pub enum Part {
    // all of it
    Whole,
    // all of it, as a number that lies in the field's range
    Distance,
    High,
    Low,
    // both halves, one in each of two instructions
    BothHalves,
}

// What is stored.
#[derive(Clone, Copy)]
pub enum Calculation {
    Of(Part, Operand),
    // the present value plus S + A, the present value minus S + A, and S + A alone
    Add,
    Sub,
    Set,
}

// What a relocation is to others.
#[derive(Clone, Copy)]
pub enum Role {
    Plain,
    // the high half that a PCREL_LO12 pairs with
    HighOfPair,
}

// What a type that stores bytes asks for: a calculation, the field that its result goes into, the form that the
// instruction there must have, how many bytes are touched, and its role. It has no padding, which would be copied
// with it.
#[derive(Clone, Copy)]
pub struct Rule {
    pub calculation: Calculation,
    pub field: Field,
    pub form: Form,
    pub size: u8,
    pub role: Role,
}

// What a type number asks for.
#[derive(Clone, Copy)]
pub enum Decision {
    // no bytes
    Marker,
    // no bytes, but padding that must end on a boundary
    Align,
    Store(Rule),
    Refused,
}

// A part of an operand.
fn of(part: Part, operand: Operand, field: Field, form: Form, size: u8) -> Decision
    ensures { result ≡ «of-operand» part operand field form size }
{
    Decision::Store(Rule {
        calculation: Calculation::Of(part, operand),
        field,
        form,
        size,
        role: Role::Plain,
    })
}

// A data word.
fn word(operand: Operand) -> Decision
    ensures { result ≡ «the_word» operand }
{
    of(Part::Whole, operand, Field::Data(Width::W32), Form::Any, 4)
}

// A data word of 64 bits, which only class 2 has.
fn word64(class: Class) -> Decision
    ensures { result ≡ lookup 2 (lines_of class) }
{
    match class {
        Class::Elf32 => Decision::Refused,
        Class::Elf64 => of(
            Part::Whole,
            Operand::Absolute,
            Field::Data(Width::W64),
            Form::Any,
            8,
        ),
    }
}

// A distance.
fn jump(field: Field, form: Form, size: u8) -> Decision
    ensures { result ≡ «the-jump» field form size }
{
    of(Part::Distance, Operand::PcRelative, field, form, size)
}

// A distance in an instruction of 16 bits, which only an object with bit 0 of e_flags may have.
fn short_jump(rvc: bool, field: Field, form: Form) -> Decision
    ensures { result ≡ cond (not rvc) Decision.Refused («the-jump» field form 2) }
{
    if rvc {
        jump(field, form, 2)
    } else {
        Decision::Refused
    }
}

// The high half that a PCREL_LO12 pairs with.
fn pairing() -> Decision
    ensures { result ≡ «the-pairing» }
{
    Decision::Store(Rule {
        calculation: Calculation::Of(Part::High, Operand::PcRelative),
        field: Field::U,
        form: Form::Auipc,
        size: 4,
        role: Role::HighOfPair,
    })
}

// ADD, SUB or SET on data.
fn stacking(calculation: Calculation, width: Width, size: u8) -> Decision
    ensures { result ≡ «the-stacking» calculation width size }
{
    Decision::Store(Rule {
        calculation,
        field: Field::Data(width),
        form: Form::Any,
        size,
        role: Role::Plain,
    })
}

// The type of the high half that a PCREL_LO12 pairs with.
pub const PCREL_HI20: u32 = 23;

// Whether a type is that of the high half that a PCREL_LO12 pairs with.
pub fn is_pairing(number: u32) -> bool
    ensures { result ≡ eqb number pairing_type }
{
    number == PCREL_HI20
}

// What a type asks for in an object of the class. `rvc` says that bit 0 of its e_flags is set.
pub fn decide(class: Class, rvc: bool, number: u32) -> Decision
    ensures { result ≡ decision class rvc number }
{
    match number {
        0 | 51 => Decision::Marker,
        43 => Decision::Align,
        1 => word(Operand::Absolute),
        2 => word64(class),
        57 => word(Operand::PcRelative),
        16 => jump(Field::B, Form::Branch, 4),
        17 => jump(Field::J, Form::Jal, 4),
        44 => short_jump(rvc, Field::Cb, Form::CBranch),
        45 => short_jump(rvc, Field::Cj, Form::CJump),
        18 | 19 => of(
            Part::BothHalves,
            Operand::PcRelative,
            Field::Call,
            Form::CallPair,
            8,
        ),
        23 => pairing(),
        26 => of(Part::High, Operand::Absolute, Field::U, Form::Lui, 4),
        27 => of(Part::Low, Operand::Absolute, Field::I, Form::LowI, 4),
        28 => of(Part::Low, Operand::Absolute, Field::S, Form::LowS, 4),
        24 => of(Part::Low, Operand::Paired, Field::I, Form::LowI, 4),
        25 => of(Part::Low, Operand::Paired, Field::S, Form::LowS, 4),
        33 => stacking(Calculation::Add, Width::W8, 1),
        34 => stacking(Calculation::Add, Width::W16, 2),
        35 => stacking(Calculation::Add, Width::W32, 4),
        36 => stacking(Calculation::Add, Width::W64, 8),
        37 => stacking(Calculation::Sub, Width::W8, 1),
        38 => stacking(Calculation::Sub, Width::W16, 2),
        39 => stacking(Calculation::Sub, Width::W32, 4),
        40 => stacking(Calculation::Sub, Width::W64, 8),
        52 => stacking(Calculation::Sub, Width::W6, 1),
        53 => stacking(Calculation::Set, Width::W6, 1),
        54 => stacking(Calculation::Set, Width::W8, 1),
        55 => stacking(Calculation::Set, Width::W16, 2),
        56 => stacking(Calculation::Set, Width::W32, 4),
        3..=15 | 20..=22 | 29..=32 | 41..=42 | 46..=50 | 58..=0xffff_ffff => Decision::Refused,
    }
}
