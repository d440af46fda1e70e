// Which sections are allowed: check 5, of an object whose header passes check 4.
#![tactic(auto)]

ghost use Rattle.std.specs.Prelude.{◌≡◌, ℕ, ◌≤◌, ◌<◌, true, ◌&&◌, length, get_or, leb};
ghost use Rattle.elf_read.specs.Headers.{section_count};
ghost use Rattle.elf_read.specs.Sections.{section_at, symbol_table, counting_rela, relocations_below};
ghost use Rattle.elf_read.specs.Requires.{HeaderInside, TableInside};
ghost use Rattle.elf_check.specs.Rules.{max_relocations, starts_null, inside_file, allocated_well, symbol_table_well, no_counting_rel, rela_kept, relocations_kept, rela_well, relocations_well, section_check};
ghost use Rattle.elf_check.specs.Requires.{Targeted, target_new, targets_differ};

use elf_read::{MAX_SECTIONS, NOBITS, NULL, REL, RELA, SYMTAB, class_of};
use numbers_arithmetic::ends_within;

// An object has at most 8,192 symbols and 32,768 relocations.
pub const MAX_SYMBOLS: usize = 8192;

pub const MAX_RELOCATIONS: usize = 32768;

// Whether no two counting RELA sections have one target, in one way through the sections. `met` tells of each section whether it is the
// target of one that was passed.
fn targets_differ(object: &[u8]) -> bool
    requires { TableInside object.now }
    ensures { result ≡ targets_differ object.now }
{
    let mut met = [false; MAX_SECTIONS];
    for i in 0..elf_read::section_count(object) {
        if elf_read::is_counting_rela(object, i) {
            let target = elf_read::read_section(object, i).info as usize;
            if met[target] {
                return false;
            }
            met[target] = true;
        }
    }
    true
}

// An object whose section headers lie in it, and what is known of all its sections together: `table` is the lowest symbol table,
// `few` tells whether the relocations of all sections are not too many, and `differ` whether no two counting RELA sections have one target.
#[derive(Clone, Copy)]
struct Sections<'a> {
    object: &'a [u8],
    table: usize,
    few: bool,
    differ: bool,
    ghost inside: { TableInside object.now },
    ghost table_is: { table ≡ symbol_table object.now },
    ghost few_is: { few ≡ leb (relocations_below object.now (section_count object.now)) max_relocations },
    ghost differ_is: { differ ≡ targets_differ object.now },
}

impl Sections<'_> {
    // Whether no counting RELA below section i, which is one, has its target.
    fn is_target_new(&self, i: usize, target: u32) -> bool
        requires { (i < section_count self.now.object.now) × (counting_rela self.now.object.now i ≡ true) × (target ≡ (section_at self.now.object.now i).info) }
        ensures { result ≡ target_new self.now.object.now i }
    {
        if self.differ {
            return true;
        }
        for j in 0..i {
            if elf_read::relocates(self.object, j, target as usize) {
                return false;
            }
        }
        true
    }

    // The rules that look at section i alone.
    fn is_plain_well(&self, i: usize) -> bool
        requires { i < section_count self.now.object.now }
        ensures { result ≡ (starts_null self.now.object.now i && inside_file self.now.object.now i && allocated_well self.now.object.now i) }
    {
        let h = elf_read::read_section(self.object, i);
        let kind = h.kind;
        let align = h.alignment;
        let starts = (i != 0) | (kind == NULL);
        let ends = ends_within(h.offset.0, h.size, self.object.len() as u64);
        let inside = (kind == NULL) | (kind == NOBITS) | ends;
        let aligned = (align == 0) | numbers_arithmetic::one_bit(align);
        let table = (kind == SYMTAB) | (kind == RELA) | (kind == REL);
        starts & inside & (!elf_read::is_allocated(h) | (aligned & !table))
    }

    // The rule of the symbol table.
    fn is_symbol_table_well(&self, i: usize) -> bool
        requires { i < section_count self.now.object.now }
        ensures { result ≡ symbol_table_well self.now.object.now i }
    {
        let size = elf_read::symbol_size(class_of(self.object));
        let h = elf_read::read_section(self.object, i);
        (h.kind != SYMTAB)
            | ((i == self.table)
                & (h.entsize == size)
                & (h.size % size == 0)
                & (elf_read::symbol_entries(self.object, h) <= MAX_SYMBOLS))
    }

    // Whether the relocations up to section i are not too many.
    fn is_number_kept(&self, i: usize) -> bool
        requires { i < section_count self.now.object.now }
        ensures { result ≡ relocations_kept self.now.object.now i }
    {
        if self.few {
            return true;
        }
        elf_read::relocations_within(self.object, i + 1, MAX_RELOCATIONS)
    }

    // The rules of a counting RELA.
    fn is_rela_kept(&self, i: usize) -> bool
        requires { Targeted self.now.object.now i × (counting_rela self.now.object.now i ≡ true) }
        ensures { result ≡ (rela_kept self.now.object.now i && relocations_kept self.now.object.now i) }
    {
        let h = elf_read::read_section(self.object, i);
        let target = elf_read::read_section(self.object, h.info as usize);
        let size = elf_read::relocation_size(class_of(self.object));
        let sized = (h.entsize == size) & (h.size % size == 0);
        let linked = (self.table < elf_read::section_count(self.object))
            & (h.link as usize == self.table);
        sized
            & linked
            & elf_read::is_loaded(target)
            & self.is_target_new(i, h.info)
            & self.is_number_kept(i)
    }

    // The rules of RELA and REL sections.
    fn is_relocation_well(&self, i: usize) -> bool
        requires { i < section_count self.now.object.now }
        ensures { result ≡ (no_counting_rel self.now.object.now i && rela_well self.now.object.now i && relocations_well self.now.object.now i) }
    {
        let h = elf_read::read_section(self.object, i);
        if !elf_read::has_target(self.object, h) {
            return true;
        }
        if h.kind == REL {
            return false;
        }
        if h.kind != RELA {
            return true;
        }
        self.is_rela_kept(i)
    }
}

// Check 5. An error is the first section that breaks a rule. A fault of the table itself has place 0.
pub fn check_sections(object: &[u8]) -> Result<(), u32>
    requires { HeaderInside object.now }
    ensures { result ≡ section_check object.now }
{
    if !elf_header::check_table(object) {
        return Err(0);
    }
    let n = elf_read::section_count(object);
    let sections = Sections {
        object,
        table: elf_read::symbol_table(object),
        few: elf_read::relocations_within(object, n, MAX_RELOCATIONS),
        differ: targets_differ(object),
    };
    for i in 0..n {
        if !(sections.is_plain_well(i)
            & sections.is_symbol_table_well(i)
            & sections.is_relocation_well(i))
        {
            return Err(i as u32);
        }
    }
    Ok(())
}
