// Checks 9 to 14 over every relocation.
#![tactic(auto)]

pub mod search;
