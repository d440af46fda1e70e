// An ELF object of either class: its header, sections, symbols and relocations. Everything is read out of the caller's bytes.
// An object stays a slice, and what is known of it a clause of one word (`HeaderInside`, `TableInside`): a struct that says so would put
// `.bytes` into each equation with a definition over bytes, and an object becomes sound in the middle of the judgement.
#![tactic(auto)]

ghost use Rattle.std.specs.Prelude.{◌≡◌, ◌&&◌, ◌+◌, ◌*◌, ◌/◌, ◌^◌, ◌≤◌, ◌<◌, length, leb, eqb};
ghost use Rattle.numbers_definitions.specs.Classes.{by};
ghost use Rattle.elf_read.specs.Headers.{class_of, header_size, section_size, symbol_size, relocation_size, section_table, section_count, file_flags, has_rvc};
ghost use Rattle.elf_read.specs.Sections.{read_section, section_at, allocated, loaded, is_allocated, symbol_table, targets, counting_rela, relocation_entries, relocations_in, relocations_below};
ghost use Rattle.elf_read.specs.Requires.{HeaderInside, TableInside, SectionInside, Inside, EntryInside};
ghost use Rattle.elf_read.specs.Entries.{bytes_of, symbol_entries, read_symbol, symbol_at, symbol_count, read_relocation, relocation_at, location_of};

use numbers_bytes::{read, read_address};
use numbers_definitions::{Class, FileOffset, SectionOffset};

// An object has at most 128 sections.
pub const MAX_SECTIONS: usize = 128;

// The section types that are looked for.
pub const NULL: u32 = 0;

pub const SYMTAB: u32 = 2;

pub const RELA: u32 = 4;

pub const NOBITS: u32 = 8;

pub const REL: u32 = 9;

// The section numbers of undefined, of absolute and of common symbols, the first of those that are reserved, the binding of weak
// symbols, and two symbol types.
pub const SHN_UNDEF: u16 = 0;

pub const SHN_LORESERVE: u16 = 0xff00;

pub const SHN_ABS: u16 = 0xfff1;

pub const SHN_COMMON: u16 = 0xfff2;

pub const STB_WEAK: u8 = 2;

pub const STT_TLS: u8 = 6;

pub const STT_GNU_IFUNC: u8 = 10;

// A section header. Types of sections, symbols and relocations are the file's own numbers: any number may stand there, and the
// definitions compare it.
#[derive(Clone, Copy)]
pub struct Section {
    pub kind: u32,
    pub flags: u64,
    pub offset: FileOffset,
    pub size: u64,
    pub link: u32,
    pub info: u32,
    pub alignment: u64,
    pub entsize: u64,
}

// A symbol: its type and binding, the section that it is defined in, and its value there.
#[derive(Clone, Copy)]
pub struct Symbol {
    pub value: SectionOffset,
    pub kind: u8,
    pub binding: u8,
    pub section: u16,
}

// A relocation. The addend is a signed number in 64-bit two's complement.
#[derive(Clone, Copy)]
pub struct Relocation {
    pub offset: SectionOffset,
    pub kind: u32,
    pub symbol: u32,
    pub addend: u64,
}

// Where a relocation is: its RELA section, and its entry in that section.
#[derive(Clone, Copy)]
pub struct Location {
    pub section: usize,
    pub entry: usize,
}

// One number for an object of class 1, another for one of class 2.
// Every class is named here, where it becomes a number, so that a new one has to be placed.
pub fn by(class: Class, short: usize, long: usize) -> usize
    ensures { result ≡ by class short long }
{
    match class {
        Class::Elf32 => short,
        Class::Elf64 => long,
    }
}

// The sizes in bytes of the file header, a section header, a symbol and a relocation.
pub fn header_size(class: Class) -> usize
    ensures { result ≡ header_size class }
{
    by(class, 52, 64)
}

pub fn section_size(class: Class) -> u64
    ensures { result ≡ section_size class }
{
    by(class, 40, 64) as u64
}

pub fn symbol_size(class: Class) -> u64
    ensures { (result ≡ symbol_size class) × (0 < result) }
{
    by(class, 16, 24) as u64
}

pub fn relocation_size(class: Class) -> u64
    ensures { (result ≡ relocation_size class) × (0 < result) }
{
    by(class, 12, 24) as u64
}

// The class of an object, which has at least the shorter of the two headers.
pub fn class_of(object: &[u8]) -> Class
    requires { header_size Class.Elf32 ≤ length object.now }
    ensures { result ≡ class_of object.now }
{
    if object[4] == 2 {
        Class::Elf64
    } else {
        Class::Elf32
    }
}

// Where the section header table starts.
pub fn section_table(object: &[u8]) -> FileOffset
    requires { HeaderInside object.now }
    ensures { result.0 ≡ section_table object.now }
{
    let class = class_of(object);
    FileOffset(read_address(class, object, by(class, 32, 40)))
}

// How many sections an object has.
pub fn section_count(object: &[u8]) -> usize
    requires { HeaderInside object.now }
    ensures { result ≡ section_count object.now }
{
    usize::from(read::<u16>(object, by(class_of(object), 48, 60)))
}

// e_flags of an object.
fn flags_of(object: &[u8]) -> u32
    requires { HeaderInside object.now }
    ensures { result ≡ file_flags object.now }
{
    read(object, by(class_of(object), 36, 48))
}

// Whether bit 0 of e_flags is set: the object may hold instructions of 16 bits.
pub fn has_rvc(object: &[u8]) -> bool
    requires { HeaderInside object.now }
    ensures { result ≡ has_rvc object.now }
{
    flags_of(object) % 2 == 1
}

// The section header at a place.
fn section_header(class: Class, object: &[u8], at: usize) -> Section
    requires { at + section_size class ≤ length object.now }
    ensures { result ≡ read_section class object.now at }
{
    Section {
        kind: read(object, at + 4),
        flags: read_address(class, object, at + 8),
        offset: FileOffset(read_address(class, object, at + by(class, 16, 24))),
        size: read_address(class, object, at + by(class, 20, 32)),
        link: read(object, at + by(class, 24, 40)),
        info: read(object, at + by(class, 28, 44)),
        alignment: read_address(class, object, at + by(class, 32, 48)),
        entsize: read_address(class, object, at + by(class, 36, 56)),
    }
}

// The header of section i.
pub fn read_section(object: &[u8], i: usize) -> Section
    requires { SectionInside object.now i }
    ensures { result ≡ section_at object.now i }
{
    let class = class_of(object);
    let table = section_table(object);
    section_header(
        class,
        object,
        table.0 as usize + section_size(class) as usize * i,
    )
}

// Whether a section takes up addresses at run time.
pub fn is_allocated(h: Section) -> bool
    ensures { result ≡ allocated h }
{
    (h.flags / 2 % 2 == 1) & (h.kind != NULL)
}

// Whether a section is allocated and has bytes in the file (document 01: laid).
pub fn is_loaded(h: Section) -> bool
    ensures { result ≡ loaded h }
{
    is_allocated(h) & (h.kind != NOBITS)
}

// The lowest SYMTAB, or the number of sections where there is none. It is no Option, since the definition, which checks 5 to 14 cite, is a number.
pub fn symbol_table(object: &[u8]) -> usize
    requires { TableInside object.now }
    ensures { result ≡ symbol_table object.now }
{
    let n = section_count(object);
    for i in 0..n {
        if read_section(object, i).kind == SYMTAB {
            return i;
        }
    }
    n
}

// Whether a number names an allocated section.
pub fn is_allocated_section(object: &[u8], i: u32) -> bool
    requires { TableInside object.now }
    ensures { result ≡ is_allocated object.now i }
{
    let at = i as usize;
    at < section_count(object) && is_allocated(read_section(object, at))
}

// Whether a section's info names an allocated section.
pub fn has_target(object: &[u8], h: Section) -> bool
    requires { TableInside object.now }
    ensures { result ≡ targets object.now h }
{
    is_allocated_section(object, h.info)
}

// Whether section i is a RELA that counts.
pub fn is_counting_rela(object: &[u8], i: usize) -> bool
    requires { SectionInside object.now i }
    ensures { result ≡ counting_rela object.now i }
{
    let h = read_section(object, i);
    (h.kind == RELA) & has_target(object, h)
}

// Whether section i is a RELA that counts, and section t is its target.
pub fn relocates(object: &[u8], i: usize, t: usize) -> bool
    requires { SectionInside object.now i }
    ensures { result ≡ (counting_rela object.now i && eqb (section_at object.now i).info t) }
{
    read_section(object, i).info as usize == t && is_counting_rela(object, i)
}

// How many entries a RELA section has.
pub fn relocation_entries(object: &[u8], h: Section) -> usize
    requires { HeaderInside object.now }
    ensures { result ≡ relocation_entries (class_of object.now) h }
{
    // Each class has its own division, since the compiler multiplies in place of dividing by a constant.
    match class_of(object) {
        Class::Elf32 => (h.size / 12) as usize,
        Class::Elf64 => (h.size / 24) as usize,
    }
}

// How many relocations section i holds.
fn relocations_in(object: &[u8], i: usize) -> usize
    requires { SectionInside object.now i }
    ensures { result ≡ relocations_in object.now i }
{
    if is_counting_rela(object, i) {
        relocation_entries(object, read_section(object, i))
    } else {
        0
    }
}

// Whether the sections below i together hold at most `most` relocations. The sum is not worked out where it is more: sections
// that were not checked can claim to hold more relocations than a number of 64 bits counts.
pub fn relocations_within(object: &[u8], i: usize, most: usize) -> bool
    requires { TableInside object.now × (i ≤ section_count object.now) }
    ensures { result ≡ leb (relocations_below object.now i) most }
{
    let mut left = most;
    for j in 0..i {
        let here = relocations_in(object, j);
        if left < here {
            return false;
        }
        left -= here;
    }
    true
}

// How many relocations the sections below i hold together, where a number of 64 bits counts them.
pub fn relocations_below(object: &[u8], i: usize) -> usize
    requires { TableInside object.now × (i ≤ section_count object.now) × (relocations_below object.now i < 2 ^ 64) }
    ensures { result ≡ relocations_below object.now i }
{
    let mut total: usize = 0;
    for j in 0..i {
        total += relocations_in(object, j);
    }
    total
}

// The bytes of a section, as a part of the object.
pub fn section_bytes(object: &[u8], h: Section) -> &[u8]
    requires { Inside object.now h }
    ensures { result.now ≡ bytes_of object.now h }
{
    let from = h.offset.0 as usize;
    let to = from + h.size as usize;
    &object[from..to]
}

// How many entries a SYMTAB section has.
pub fn symbol_entries(object: &[u8], h: Section) -> usize
    requires { HeaderInside object.now }
    ensures { result ≡ symbol_entries (class_of object.now) h }
{
    // Each class has its own division, as in `relocation_entries`.
    match class_of(object) {
        Class::Elf32 => (h.size / 16) as usize,
        Class::Elf64 => (h.size / 24) as usize,
    }
}

// How many symbols there are.
pub fn symbol_count(object: &[u8]) -> usize
    requires { TableInside object.now }
    ensures { result ≡ symbol_count object.now }
{
    let table = symbol_table(object);
    if table < section_count(object) {
        symbol_entries(object, read_section(object, table))
    } else {
        0
    }
}

// Where entry k of a section stands whose entries have a size.
fn entry_place(h: Section, size: u64, k: usize) -> usize
    requires { (h.offset.0 + h.size < 2 ^ 64) × (0 < size) × (k < h.size / size) }
    ensures { (result ≡ h.offset.0 + size * k) × (result + size ≤ h.offset.0 + h.size) }
{
    h.offset.0 as usize + size as usize * k
}

// The symbol at a place.
fn symbol_entry(class: Class, object: &[u8], at: usize) -> Symbol
    requires { at + symbol_size class ≤ length object.now }
    ensures { result ≡ read_symbol class object.now at }
{
    let info: u8 = read(object, at + by(class, 12, 4));
    Symbol {
        value: SectionOffset(read_address(class, object, at + by(class, 4, 8))),
        kind: info % 16,
        binding: info / 16,
        section: read(object, at + by(class, 14, 6)),
    }
}

// Entry k of a SYMTAB section.
pub fn read_symbol(object: &[u8], table: Section, k: usize) -> Symbol
    requires { EntryInside object.now table (symbol_entries (class_of object.now) table) k }
    ensures { result ≡ symbol_at object.now table k }
{
    let class = class_of(object);
    symbol_entry(class, object, entry_place(table, symbol_size(class), k))
}

// Entry k of a RELA section. The type is the low 8 bits of the info word in class 1, and the low 32 bits in class 2. Each class has its
// own call of `entry_place`, so that k is multiplied by a constant.
pub fn read_relocation(object: &[u8], h: Section, k: usize) -> Relocation
    requires { EntryInside object.now h (relocation_entries (class_of object.now) h) k }
    ensures { result ≡ relocation_at object.now h k }
{
    let class = class_of(object);
    match class {
        Class::Elf32 => {
            let at = entry_place(h, 12, k);
            let info: u32 = read(object, at + 4);
            Relocation {
                offset: SectionOffset(u64::from(read::<u32>(object, at))),
                kind: info % 256,
                symbol: info / 256,
                addend: numbers_arithmetic::addend(read(object, at + 8)),
            }
        }
        Class::Elf64 => {
            let at = entry_place(h, 24, k);
            let info: u64 = read(object, at + 8);
            Relocation {
                offset: SectionOffset(read(object, at)),
                kind: (info % 0x1_0000_0000) as u32,
                symbol: (info / 0x1_0000_0000) as u32,
                addend: read(object, at + 16),
            }
        }
    }
}

// The type of entry k of a RELA section, without its other fields.
// Each class has its own call of `entry_place`, as in `read_relocation`.
pub fn read_kind(object: &[u8], h: Section, k: usize) -> u32
    requires { EntryInside object.now h (relocation_entries (class_of object.now) h) k }
    ensures { result ≡ (relocation_at object.now h k).kind }
{
    let class = class_of(object);
    match class {
        Class::Elf32 => u32::from(read::<u8>(object, entry_place(h, 12, k) + 4)),
        Class::Elf64 => read(object, entry_place(h, 24, k) + 8),
    }
}

// The offset of entry k of a RELA section.
pub fn read_offset(object: &[u8], h: Section, k: usize) -> SectionOffset
    requires { EntryInside object.now h (relocation_entries (class_of object.now) h) k }
    ensures { result ≡ (relocation_at object.now h k).offset }
{
    offset_in(class_of(object), object, h, k)
}

// The same, for a caller that has the class.
// Each class has its own call of `entry_place`, as in `read_relocation`.
pub fn offset_in(class: Class, object: &[u8], h: Section, k: usize) -> SectionOffset
    requires { EntryInside object.now h (relocation_entries (class_of object.now) h) k × (class ≡ class_of object.now) }
    ensures { result ≡ (relocation_at object.now h k).offset }
{
    match class {
        Class::Elf32 => SectionOffset(u64::from(read::<u32>(object, entry_place(h, 12, k)))),
        Class::Elf64 => SectionOffset(read(object, entry_place(h, 24, k))),
    }
}

// Where relocation number k is. Relocations are numbered through all counting RELA sections.
// Past the last one the section is the number of sections, as the definition `location_of` has it.
pub fn locate(object: &[u8], k: usize) -> Location
    requires { TableInside object.now × (relocations_below object.now (section_count object.now) < 2 ^ 64) }
    ensures { result ≡ location_of object.now k }
{
    let n = section_count(object);
    let mut below: usize = 0;
    for i in 0..n {
        let here = relocations_in(object, i);
        if k < below + here {
            return Location {
                section: i,
                entry: k - below,
            };
        }
        below += here;
    }
    Location {
        section: n,
        entry: k - below,
    }
}
