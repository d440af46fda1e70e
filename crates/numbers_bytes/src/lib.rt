// Numbers in bytes, the lowest byte first, and bytes that are copied.
#![tactic(auto)]

ghost use Rattle.std.specs.Prelude.{◌≡◌, ℕ, true, ◌+◌, ◌≤◌, length};
ghost use Rattle.std.proofs.lemmas.List.Edits.{sets};
ghost use Rattle.numbers_definitions.specs.Bytes.{le_at, bytes, part};
ghost use Rattle.numbers_definitions.specs.Classes.{address_bytes};
ghost use Rattle.numbers_bytes.specs.Widths.{is_width};

use numbers_definitions::Class;

// A number that is kept in bytes, the lowest first.
pub trait Number: Sized {
    // How many bytes it has.
    ghost size: { ℕ };

    // Which number it is.
    ghost value: { Self → ℕ };

    // The number that the bytes at `at` spell.
    fn read_from(s: &[u8], at: usize) -> Self
        requires { at + size ≤ length s.now }
        ensures { value result ≡ le_at size s.now at };

    // Writes the number from `at` on.
    fn write_to(self, s: &mut [u8], at: usize)
        requires { at + size ≤ length s.old }
        ensures { s.new ≡ sets s.old at (bytes size (value self)) };

    // A value is that of one number only.
    ghost determined: { (x y : Self) → value x ≡ value y → x ≡ y };
}

// Each type has an `impl` of its own, since `from_le_bytes` and `to_le_bytes` are methods of the types, and of no trait.
impl Number for u8 {
    ghost size = { 1 };

    ghost value = { λ x. x };

    fn read_from(s: &[u8], at: usize) -> u8 {
        u8::from_le_bytes(array_at(s, at))
    }

    fn write_to(self, s: &mut [u8], at: usize) {
        put(s, at, &u8::to_le_bytes(self));
    }

    ghost determined = { λ x y e. e };
}

impl Number for u16 {
    ghost size = { 2 };

    ghost value = { λ x. x };

    fn read_from(s: &[u8], at: usize) -> u16 {
        u16::from_le_bytes(array_at(s, at))
    }

    fn write_to(self, s: &mut [u8], at: usize) {
        put(s, at, &u16::to_le_bytes(self));
    }

    ghost determined = { λ x y e. e };
}

impl Number for u32 {
    ghost size = { 4 };

    ghost value = { λ x. x };

    fn read_from(s: &[u8], at: usize) -> u32 {
        u32::from_le_bytes(array_at(s, at))
    }

    fn write_to(self, s: &mut [u8], at: usize) {
        put(s, at, &u32::to_le_bytes(self));
    }

    ghost determined = { λ x y e. e };
}

impl Number for u64 {
    ghost size = { 8 };

    ghost value = { λ x. x };

    fn read_from(s: &[u8], at: usize) -> u64 {
        u64::from_le_bytes(array_at(s, at))
    }

    fn write_to(self, s: &mut [u8], at: usize) {
        put(s, at, &u64::to_le_bytes(self));
    }

    ghost determined = { λ x y e. e };
}

// The number that the bytes at `at` spell, the lowest first: `read::<u32>(s, at)` reads four.
pub fn read<N: Number>(s: &[u8], at: usize) -> N
    requires { at + N.size ≤ length s.now }
    ensures { N.value result ≡ le_at N.size s.now at }
{
    N::read_from(s, at)
}

// Writes a number, the lowest byte first.
pub fn write<N: Number>(s: &mut [u8], at: usize, x: N)
    requires { at + N.size ≤ length s.old }
    ensures { s.new ≡ sets s.old at (bytes N.size (N.value x)) }
{
    x.write_to(s, at)
}

// The N bytes from `at` on.
fn array_at<const N: usize>(s: &[u8], at: usize) -> [u8; N]
    requires { at + N ≤ length s.now }
    ensures { result ≡ part s.now at N }
{
    let mut bytes = [0u8; N];
    bytes.copy_from_slice(&s[at..at + N]);
    bytes
}

// Stores bytes from `at` on.
fn put(s: &mut [u8], at: usize, these: &[u8])
    requires { at + length these.now ≤ length s.old }
    ensures { s.new ≡ sets s.old at these.now }
{
    s[at..at + these.len()].copy_from_slice(these);
}

// The address that the bytes at `at` spell: four in a file of class 1, eight in one of class 2, the lowest first.
pub fn read_address(class: Class, s: &[u8], at: usize) -> u64
    requires { at + address_bytes class ≤ length s.now }
    ensures { result ≡ le_at (address_bytes class) s.now at }
{
    match class {
        Class::Elf32 => u64::from(read::<u32>(s, at)),
        Class::Elf64 => read(s, at),
    }
}

// The number that n bytes spell, the lowest first.
// n is the width of a number in a format, and not the length of the slice.
pub fn read_bytes(s: &[u8], at: usize, n: usize) -> u64
    requires { (at + n ≤ length s.now) × (is_width n ≡ true) }
    ensures { result ≡ le_at n s.now at }
{
    match n {
        1 => u64::from(read::<u8>(s, at)),
        2 => u64::from(read::<u16>(s, at)),
        4 => u64::from(read::<u32>(s, at)),
        _ => read(s, at),
    }
}

// Writes a number as n bytes, the lowest first.
// n is that width here too.
pub fn write_bytes(s: &mut [u8], at: usize, n: usize, x: u64)
    requires { (at + n ≤ length s.old) × (is_width n ≡ true) }
    ensures { s.new ≡ sets s.old at (bytes n x) }
{
    match n {
        1 => write(s, at, (x % 0x100) as u8),
        2 => write(s, at, (x % 0x1_0000) as u16),
        4 => write(s, at, (x % 0x1_0000_0000) as u32),
        _ => write(s, at, x),
    }
}

// Copies n bytes of `src`, from `from` on, to `dst`, from `at` on. It is a loop, and no `copy_from_slice`: that calls `memmove`, which
// callers in C would have to bring.
pub fn copy(dst: &mut [u8], at: usize, src: &[u8], from: usize, n: usize)
    requires { (at + n ≤ length dst.old) × (from + n ≤ length src.now) }
    ensures { dst.new ≡ sets dst.old at (part src.now from n) }
{
    for i in 0..n {
        dst[at + i] = src[from + i];
    }
}
