// RISC-V instructions as relocations see them: halves, ranges, forms and sums.
// Instructions and data are numbers of up to 64 bits, as `numbers_bytes` reads them from bytes.
#![tactic(auto)]

pub mod data;
pub mod forms;
pub mod halves;
pub mod ranges;
