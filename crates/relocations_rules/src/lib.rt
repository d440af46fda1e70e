// The rules of relocations: checks 10 to 14 of one relocation, and the first broken rule over all relocations.
// Definitions and theorems, no code; `relocations_check_one` and `relocations_check_all` do the checking.
#![tactic(auto)]

use placing_symbols::Reason;

// Which of checks 9 to 14 a relocation breaks; and why its symbol has no value, where that is 10.
#[derive(Clone, Copy)]
pub enum Finding {
    BadShape,
    BadSymbol(Reason),
    BadForm,
    NoPair,
    OutOfReach,
    OffBoundary,
}

// The first rule broken by the first relocation that breaks one, and the number of that relocation.
#[derive(Clone, Copy)]
pub struct Broken {
    pub finding: Finding,
    pub relocation: u32,
}
