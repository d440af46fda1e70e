// What the rules need to know about a type's decision.
#![tactic(auto)]

ghost use Rattle.std.specs.Prelude.{◌≡◌};
ghost use Rattle.instructions_fields.specs.Fields.{value_bits};
ghost use Rattle.relocations_decisions.specs.Decisions.{is_store, is_refused, touched, stacks, stack_bits, stack_width, is_paired, takes_pair, needs_pair, is_high_of_pair, gives_pair};

use instructions_fields::{Field, Width};
use relocations_types::{Calculation, Decision, Operand, Role, Rule};

// Whether bytes are stored, so that it is neither a marker nor refused. The matches of this crate name every case on purpose, so that a new one has to be
// placed in each.
pub fn is_store(decision: Decision) -> bool
    ensures { result ≡ is_store decision }
{
    match decision {
        Decision::Store(_) => true,
        Decision::Marker | Decision::Align | Decision::Refused => false,
    }
}

pub fn is_refused(decision: Decision) -> bool
    ensures { result ≡ is_refused decision }
{
    match decision {
        Decision::Refused => true,
        Decision::Store(_) | Decision::Marker | Decision::Align => false,
    }
}

// How many bytes are touched.
pub fn bytes_touched(decision: Decision) -> u8
    ensures { result ≡ touched decision }
{
    match decision {
        Decision::Store(rule) => rule.size,
        Decision::Marker | Decision::Align | Decision::Refused => 0,
    }
}

// Whether it is an ADD, SUB or SET.
fn is_stacked(calculation: Calculation) -> bool
    ensures { result ≡ stacks calculation }
{
    match calculation {
        Calculation::Of(_, _) => false,
        Calculation::Add | Calculation::Sub | Calculation::Set => true,
    }
}

// How many bits the value of a field has.
fn value_bits(field: Field) -> u32
    ensures { result ≡ value_bits field }
{
    match field {
        Field::U | Field::Call => 32,
        Field::I | Field::S | Field::Cj => 12,
        Field::B => 13,
        Field::J => 21,
        Field::Cb => 9,
        Field::Data(width) => match width {
            Width::W6 => 6,
            Width::W8 => 8,
            Width::W16 => 16,
            Width::W32 => 32,
            Width::W64 => 64,
        },
    }
}

// The width of an ADD, SUB or SET in bits, or 0 for any other calculation. It is no Option: it goes round the loop over the
// relocations beside numbers of one size.
pub fn stack_bits(rule: Rule) -> u32
    ensures { result ≡ stack_bits rule }
{
    if is_stacked(rule.calculation) {
        value_bits(rule.field)
    } else {
        0
    }
}

// The width of an ADD, SUB or SET in bits, or 0 for any other type.
// It is no Option: the definition, by which it is promised, is a number.
pub fn stack_width(decision: Decision) -> u32
    ensures { result ≡ stack_width decision }
{
    match decision {
        Decision::Store(rule) => stack_bits(rule),
        Decision::Marker | Decision::Align | Decision::Refused => 0,
    }
}

// Whether it is that of a paired high half.
pub fn is_paired(operand: Operand) -> bool
    ensures { result ≡ is_paired operand }
{
    match operand {
        Operand::Absolute | Operand::PcRelative => false,
        Operand::Paired => true,
    }
}

// Whether it is a PCREL_LO12, which takes its value from a paired high half.
pub fn takes_pair(calculation: Calculation) -> bool
    ensures { result ≡ takes_pair calculation }
{
    match calculation {
        Calculation::Of(_, operand) => is_paired(operand),
        Calculation::Add | Calculation::Sub | Calculation::Set => false,
    }
}

pub fn needs_pair(decision: Decision) -> bool
    ensures { result ≡ needs_pair decision }
{
    match decision {
        Decision::Store(rule) => takes_pair(rule.calculation),
        Decision::Marker | Decision::Align | Decision::Refused => false,
    }
}

fn is_high_of_pair(role: Role) -> bool
    ensures { result ≡ is_high_of_pair role }
{
    match role {
        Role::Plain => false,
        Role::HighOfPair => true,
    }
}

// Whether it is a PCREL_HI20, with which a PCREL_LO12 pairs.
pub fn gives_pair(decision: Decision) -> bool
    ensures { result ≡ gives_pair decision }
{
    match decision {
        Decision::Store(rule) => is_high_of_pair(rule.role),
        Decision::Marker | Decision::Align | Decision::Refused => false,
    }
}
