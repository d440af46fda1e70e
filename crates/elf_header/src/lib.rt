// The header of an object, and where its section header table stands: check 4, and check 5 at place 0.
#![tactic(auto)]

ghost use Rattle.std.specs.Prelude.{◌≡◌, eqb};
ghost use Rattle.numbers_definitions.specs.Bytes.{le_at};
ghost use Rattle.numbers_definitions.specs.Classes.{by};
ghost use Rattle.elf_read.specs.Headers.{class_of, header_size};
ghost use Rattle.elf_read.specs.Requires.{HeaderInside};
ghost use Rattle.elf_header.specs.Headers.{header_allowed, table_allowed};

use elf_read::{MAX_SECTIONS, by, class_of, header_size, section_size};
use numbers_arithmetic::ends_within;
use numbers_bytes::read;
use numbers_definitions::Class;

// An object has at most 1,048,576 bytes.
pub const MAX_OBJECT: usize = 1_048_576;

// Whether the header says its own size.
fn is_size_said(object: &[u8]) -> bool
    requires { HeaderInside object.now }
    ensures { result ≡ eqb (le_at 2 object.now (by (class_of object.now) 40 52)) (header_size (class_of object.now)) }
{
    let class = class_of(object);
    usize::from(read::<u16>(object, by(class, 40, 52))) == header_size(class)
}

// Check 4.
pub fn check_header(object: &[u8]) -> bool
    ensures { result ≡ header_allowed object.now }
{
    if MAX_OBJECT < object.len() {
        return false;
    }
    if object.len() < header_size(Class::Elf32) {
        return false;
    }
    if object.len() < header_size(class_of(object)) {
        return false;
    }
    (read::<u32>(object, 0) == 0x464c457f)
        & ((object[4] == 1) | (object[4] == 2))
        & (object[5] == 1)
        & (object[6] == 1)
        & (read::<u16>(object, 16) == 1)
        & (read::<u16>(object, 18) == 243)
        & (read::<u32>(object, 20) == 1)
        & is_size_said(object)
}

// Check 5 at place 0: the section header table.
pub fn check_table(object: &[u8]) -> bool
    requires { HeaderInside object.now }
    ensures { result ≡ table_allowed object.now }
{
    let n = elf_read::section_count(object);
    if MAX_SECTIONS < n {
        return false;
    }
    let class = class_of(object);
    let size = section_size(class);
    let start = elf_read::section_table(object);
    (u64::from(read::<u16>(object, by(class, 46, 58))) == size)
        & (1 <= n)
        & ends_within(start.0, size * n as u64, object.len() as u64)
}
