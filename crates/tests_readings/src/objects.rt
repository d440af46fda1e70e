// o: checks 4 and 5 of an object. If it passes, a digest for each function that reads it.
ghost use Rattle.std.specs.Prelude.{◌≡◌, ◌<◌, true};
ghost use Rattle.elf_read.specs.Headers.{class_of, section_count};
ghost use Rattle.elf_read.specs.Sections.{relocation_entries};
ghost use Rattle.elf_read.specs.Entries.{symbol_entries};
ghost use Rattle.elf_read.specs.Requires.{HeaderInside, TableInside, Inside, EntryInside};
ghost use Rattle.elf_header.specs.Headers.{header_allowed};
ghost use Rattle.elf_check.specs.Requires.{SoundObject};

use super::{digest, lines};
use elf_read::{NOBITS, NULL, Section};
use std::io;
use std::io::Write;

pub fn line(out: &mut impl Write, s: &[u8]) -> io::Result<()> {
    if elf_header::check_header(s) {
        check_sections(out, s)?;
    } else {
        lines::answer(out, b'o', 4, 0)?;
    }
    tests_harness::end(out)
}

fn check_sections(out: &mut impl Write, s: &[u8]) -> io::Result<()>
    requires { header_allowed s.now ≡ true }
{
    match elf_check::check_sections(s) {
        Ok(()) => passed(out, s),
        Err(i) => lines::answer(out, b'o', 5, u64::from(i)),
    }
}

fn passed(out: &mut impl Write, s: &[u8]) -> io::Result<()>
    requires { SoundObject s.now }
{
    lines::answer(out, b'o', 0, 0)?;
    sections(out, s)?;
    entries(out, s)
}

// How many sections there are, and their headers, roles and bytes.
fn sections(out: &mut impl Write, s: &[u8]) -> io::Result<()>
    requires { SoundObject s.now }
{
    tests_harness::then(out, elf_read::section_count(s) as u64)?;
    tests_harness::then(out, headers(s))?;
    tests_harness::then(out, roles(s))?;
    tests_harness::then(out, bodies(s))
}

// The symbol table and the symbols; how many relocations there are, where they are, and the relocations themselves.
fn entries(out: &mut impl Write, s: &[u8]) -> io::Result<()>
    requires { SoundObject s.now }
{
    let n = elf_read::section_count(s);
    tests_harness::then(out, elf_read::symbol_table(s) as u64)?;
    tests_harness::then(out, elf_read::symbol_count(s) as u64)?;
    tests_harness::then(out, symbols(s))?;
    tests_harness::then(out, elf_read::relocations_below(s, n) as u64)?;
    tests_harness::then(out, locations(s))?;
    tests_harness::then(out, relocations(s))
}

fn headers(s: &[u8]) -> u64
    requires { TableInside s.now }
{
    let mut d = digest::START;
    for i in 0..elf_read::section_count(s) {
        d = header(d, elf_read::read_section(s, i));
    }
    d
}

fn header(digest: u64, h: Section) -> u64 {
    digest::numbers(
        digest,
        &[
            u64::from(h.kind),
            h.flags,
            h.offset.0,
            h.size,
            u64::from(h.link),
            u64::from(h.info),
            h.alignment,
            h.entsize,
        ],
    )
}

fn roles(s: &[u8]) -> u64
    requires { TableInside s.now }
{
    let mut d = digest::START;
    for i in 0..elf_read::section_count(s) {
        d = role(d, s, i);
    }
    d
}

// Whether a section is allocated, whether it is loaded, and whether it is a RELA section that counts.
fn role(digest: u64, s: &[u8], i: usize) -> u64
    requires { TableInside s.now × (i < section_count s.now) }
{
    let h = elf_read::read_section(s, i);
    let is_allocated = elf_read::is_allocated(h);
    let is_loaded = elf_read::is_loaded(h);
    let counts = elf_read::is_counting_rela(s, i);
    digest::numbers(
        digest,
        &[
            u64::from(is_allocated),
            u64::from(is_loaded),
            u64::from(counts),
        ],
    )
}

fn bodies(s: &[u8]) -> u64
    requires { TableInside s.now }
{
    let mut d = digest::START;
    for i in 0..elf_read::section_count(s) {
        d = body(d, s, elf_read::read_section(s, i));
    }
    d
}

// The bytes of a section that has bytes in the file.
fn body(digest: u64, s: &[u8], h: Section) -> u64 {
    if (h.kind == NULL) | (h.kind == NOBITS) {
        return digest;
    }
    if !numbers_arithmetic::ends_within(h.offset.0, h.size, s.len() as u64) {
        return digest;
    }
    digest::bytes(digest, elf_read::section_bytes(s, h))
}

fn symbols(s: &[u8]) -> u64
    requires { SoundObject s.now }
{
    let table = elf_read::symbol_table(s);
    if elf_read::section_count(s) <= table {
        return 0;
    }
    let n = elf_read::symbol_count(s);
    let h = elf_read::read_section(s, table);
    let mut d = digest::START;
    for k in 0..n {
        d = symbol(d, s, h, k);
    }
    d
}

fn symbol(digest: u64, s: &[u8], table: Section, k: usize) -> u64
    requires { EntryInside s.now table (symbol_entries (class_of s.now) table) k }
{
    let y = elf_read::read_symbol(s, table, k);
    digest::numbers(
        digest,
        &[
            y.value.0,
            u64::from(y.kind),
            u64::from(y.binding),
            u64::from(y.section),
        ],
    )
}

// For each section, where three relocations are: the first one after the section, the one before that, and one in the
// middle of all those up to there.
fn locations(s: &[u8]) -> u64
    requires { SoundObject s.now }
{
    let mut d = digest::START;
    for i in 0..elf_read::section_count(s) {
        let below = elf_read::relocations_below(s, i + 1);
        d = location(d, s, below);
        d = location(d, s, below / 2);
        d = location(d, s, below.wrapping_sub(1));
    }
    d
}

fn location(digest: u64, s: &[u8], k: usize) -> u64
    requires { SoundObject s.now }
{
    let at = elf_read::locate(s, k);
    digest::numbers(digest, &[at.section as u64, at.entry as u64])
}

fn relocations(s: &[u8]) -> u64
    requires { SoundObject s.now }
{
    let mut d = digest::START;
    for i in 0..elf_read::section_count(s) {
        if elf_read::is_counting_rela(s, i) {
            d = relocations_in(d, s, elf_read::read_section(s, i));
        }
    }
    d
}

fn relocations_in(digest: u64, s: &[u8], h: Section) -> u64
    requires { HeaderInside s.now × Inside s.now h }
{
    let n = elf_read::relocation_entries(s, h);
    let mut d = digest;
    for k in 0..n {
        d = relocation(d, s, h, k);
    }
    d
}

fn relocation(digest: u64, s: &[u8], h: Section, k: usize) -> u64
    requires { EntryInside s.now h (relocation_entries (class_of s.now) h) k }
{
    let r = elf_read::read_relocation(s, h, k);
    digest::numbers(
        digest,
        &[r.offset.0, u64::from(r.kind), u64::from(r.symbol), r.addend],
    )
}
