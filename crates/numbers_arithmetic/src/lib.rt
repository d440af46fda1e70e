// Sums and differences that wrap, signed words, and powers of two.
#![tactic(auto)]

ghost use Rattle.std.specs.Prelude.{◌≡◌, ◌+◌, ◌-◌, ◌%◌, ◌^◌, ◌<◌, nat_le};
ghost use Rattle.numbers_definitions.specs.Classes.{bits};
ghost use Rattle.numbers_definitions.specs.Whole.{residue, signed, plus, minus};
ghost use Rattle.numbers_definitions.specs.Powers.{one_bit, ceil_power};

use numbers_definitions::Class;

// v + x and v - x, wrapping at 64 bits.
#[tactic(auto, unfolding(numbers_definitions::specs::Whole::plus))]
pub fn add64(v: u64, x: u64) -> u64
    ensures { result ≡ plus 64 v x }
{
    v.wrapping_add(x)
}

pub fn sub64(v: u64, x: u64) -> u64
    ensures { result ≡ minus 64 v x }
{
    v.wrapping_sub(x)
}

// x modulo 2^32 or 2^64, as wide as addresses are.
pub fn reduce(class: Class, x: u64) -> u64
    ensures { result ≡ x % 2 ^ bits class }
{
    x & last_address(class)
}

// The last address, whose bits are all ones. Every class is named, so that a new one has to be placed.
fn last_address(class: Class) -> u64
    ensures { result ≡ 2 ^ bits class - 1 }
{
    match class {
        Class::Elf32 => 0xffff_ffff,
        Class::Elf64 => 0xffff_ffff_ffff_ffff,
    }
}

// The sum and the difference of two addresses.
pub fn sum(class: Class, a: u64, b: u64) -> u64
    ensures { result ≡ plus (bits class) a b }
{
    reduce(class, add64(a, b))
}

pub fn difference(class: Class, a: u64, b: u64) -> u64
    ensures { result ≡ minus (bits class) a b }
{
    reduce(class, sub64(a, b))
}

// Whether start + size is at most a limit. Nothing wraps.
pub fn ends_within(start: u64, size: u64, limit: u64) -> bool
    ensures { result ≡ nat_le (start + size) limit }
{
    match start.checked_add(size) {
        Some(end) => end <= limit,
        None => false,
    }
}

// Whether start + size is at most the end of memory. Nothing wraps.
pub fn ends_in_memory(class: Class, start: u64, size: u64) -> bool
    ensures { result ≡ nat_le (start + size) (2 ^ bits class) }
{
    match class {
        Class::Elf32 => ends_within(start, size, 0x1_0000_0000),
        Class::Elf64 => size == 0 || start.checked_add(size - 1).is_some(),
    }
}

// The signed number that a word of 32 bits spells, modulo 2^64.
pub fn addend(word: u32) -> u64
    ensures { result ≡ residue 64 (signed 32 word) }
{
    i64::from(word.cast_signed()).cast_unsigned()
}

// Whether exactly one bit of a number is set.
#[tactic(auto, using(numbers_definitions::proofs::Laws::Powers::one_bit_is))]
pub fn one_bit(x: u64) -> bool
    ensures { result ≡ one_bit 64 x }
{
    x.count_ones() == 1
}

// The smallest power of two that is at least n.
pub fn ceil_power(n: u32) -> u64
    ensures { result ≡ ceil_power 32 n }
{
    if n == 0 {
        return 1;
    }
    1u64 << (32 - (n - 1).leading_zeros())
}
