// Numbers in bytes, arithmetic that wraps at a width, and powers of two: definitions and theorems, no code.
// The code that reads and writes bytes is in `numbers_bytes`, the code that computes is in `numbers_arithmetic`.
#![tactic(auto)]

// Three types that cannot be mixed: a place in the object, a place in a section, and a run-time address.
#[derive(Clone, Copy)]
pub struct FileOffset(pub u64);

#[derive(Clone, Copy)]
pub struct SectionOffset(pub u64);

#[derive(Clone, Copy)]
pub struct Address(pub u64);

// How wide addresses are. The names are those of ELF's two classes.
#[derive(Clone, Copy, PartialEq, Eq)]
pub enum Class {
    Elf32,
    Elf64,
}
