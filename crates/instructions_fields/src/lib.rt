// The fields of instructions and of data that relocations write: definitions and theorems, no code.
// `instructions_encode` puts a value into a field, and `instructions_decode` reads it out.
#![tactic(auto)]

// The width of a data field in bits.
#[derive(Clone, Copy)]
pub enum Width {
    W6,
    W8,
    W16,
    W32,
    W64,
}

// An instruction format of the RISC-V manual, the pair of instructions of a CALL, or data.
#[derive(Clone, Copy)]
pub enum Field {
    U,
    I,
    S,
    B,
    J,
    Cb,
    Cj,
    Call,
    Data(Width),
}
