// RELA sections and their relocations: what each relocation's type asks for, and check 9. Everything is read from the
// object as it was given.
#![tactic(auto)]

pub mod shape;
pub mod sites;
