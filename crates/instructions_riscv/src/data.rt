// ADD, SUB and SET on data fields. `x` is S + A in 64-bit two's complement. The sum and the difference wrap at 64 bits, and
// `put_data` cuts them at the width of the field.
ghost use Rattle.std.specs.Prelude.{◌≡◌};
ghost use Rattle.numbers_definitions.specs.Whole.{signed};
ghost use Rattle.instructions_riscv.specs.Data.{added, subtracted, replaced};

use instructions_encode::put_data;
use instructions_fields::Width;
use numbers_arithmetic::{add64, sub64};

// The present value with x added.
pub fn add(width: Width, v: u64, x: u64) -> u64
    ensures { result ≡ added width v (signed 64 x) }
{
    put_data(width, v, add64(v, x))
}

// The present value with x subtracted.
pub fn sub(width: Width, v: u64, x: u64) -> u64
    ensures { result ≡ subtracted width v (signed 64 x) }
{
    put_data(width, v, sub64(v, x))
}

// x instead of the present value.
pub fn set(width: Width, v: u64, x: u64) -> u64
    ensures { result ≡ replaced width v (signed 64 x) }
{
    put_data(width, v, x)
}
