// The high and the low half of an address or of a distance.
ghost use Rattle.std.specs.Prelude.{◌≡◌};
ghost use Rattle.numbers_definitions.specs.declared.Class.{Class};
ghost use Rattle.numbers_definitions.specs.Classes.{bits};
ghost use Rattle.numbers_definitions.specs.Whole.{residue};
ghost use Rattle.instructions_riscv.specs.Halves.{high, low};

use numbers_definitions::Class;

// The high half, rounded so that the low half is from -2,048 to 2,047.
pub fn hi20(class: Class, x: u64) -> u64
    ensures { result ≡ high (bits class) x }
{
    numbers_arithmetic::sum(class, x, 2048) / 4096
}

// The twelve bits of the low half. They are the same in both classes.
pub fn lo12(x: u64) -> u64
    ensures { (k : Class) → result ≡ residue 12 (low (bits k) x) }
{
    x % 4096
}
