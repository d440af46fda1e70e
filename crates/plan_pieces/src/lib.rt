// What an install writes: pieces of bytes, and their span. Definitions and theorems, and the span's type.
#![tactic(auto)]

// A run of bytes of the image.
#[derive(Clone, Copy, PartialEq, Eq, Default)]
pub struct Span {
    pub start: u32,
    pub size: u32,
}
