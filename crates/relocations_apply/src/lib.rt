// The bytes of sections after their relocations, laid in place. Every check has passed, and what each relocation leaves is worked
// out already, so nothing here can fail.
#![tactic(auto)]

ghost use Rattle.std.specs.Prelude.{◌≡◌, true, List, ℕ, ◌+◌, ◌^◌, ◌≤◌, ◌<◌, length, get_or, None};
ghost use Rattle.std.proofs.lemmas.List.Edits.{sets};
ghost use Rattle.numbers_definitions.specs.Bytes.{bytes};
ghost use Rattle.elf_read.specs.Requires.{HeaderInside};
ghost use Rattle.elf_read.specs.Headers.{class_of, section_count};
ghost use Rattle.elf_read.specs.Sections.{section_at, loaded};
ghost use Rattle.elf_check.specs.Requires.{SoundObject};
ghost use Rattle.relocations_rela.specs.Sites.{count, offset, found};
ghost use Rattle.relocations_rela.specs.Requires.{Placed};
ghost use Rattle.relocations_rules.specs.Search.{relocation_check};
ghost use Rattle.relocations_bytes.specs.Sections.{after, relocated};
ghost use Rattle.relocations_check_all.specs.Sites.{Worded, Worked};
ghost use Rattle.relocations_apply.specs.Requires.{Storable, Sided, Indexed};

use numbers_bytes::write_bytes;
use numbers_definitions::Class;
use relocations_rela::sites::{Site, site_at};

// Stores what relocation j of a site leaves, if it leaves anything. Its word and its size are at place k of the lists.
fn store_one(
    class: Class,
    object: &[u8],
    site: Site,
    words: &[u64],
    sizes: &[u8],
    k: usize,
    j: usize,
    part: &mut [u8],
)
    requires { Storable object.now site j (get_or sizes.now k 0) (length part.old) × (k < length words.now) × (k < length sizes.now) × (length words.now < 2 ^ 32) × (class ≡ class_of object.now) }
    ensures { part.new ≡ sets part.old (offset object.now site j) (bytes (get_or sizes.now k 0) (get_or words.now k 0)) }
{
    let size = sizes[k];
    if size == 0 {
        return;
    }
    let at = elf_read::offset_in(class, object, site.rela, j);
    write_bytes(part, at.0 as usize, size as usize, words[k]);
}

// Stores what the relocations of a site leave, in file order.
fn apply_all(object: &[u8], site: Site, words: &[u64], sizes: &[u8], base: usize, part: &mut [u8])
    requires { HeaderInside object.now × (base + count object.now site ≤ length words.now) × (base + count object.now site ≤ length sizes.now) × (length words.now < 2 ^ 32)
        × ((j : ℕ) → j < count object.now site → Storable object.now site j (get_or sizes.now (base + j) 0) (length part.old)) × (part.old ≡ found object.now site) }
    ensures { ((order addresses : List ℕ) → Worded object.now order addresses site (count object.now site) words.now sizes.now base
        → part.new ≡ after object.now order addresses site (count object.now site)) × (length part.new ≡ length part.old) }
{
    let class = elf_read::class_of(object);
    let n = elf_read::relocation_entries(object, site.rela);
    for j in 0..n {
        store_one(class, object, site, words, sizes, base + j, j, part);
    }
}

// Copies bytes into a part of the same length.
fn copy(from: &[u8], part: &mut [u8])
    requires { length from.now ≡ length part.old }
    ensures { part.new ≡ from.now }
{
    numbers_bytes::copy(part, 0, from, 0, from.len());
}

// The RELA section of a section, and the number of its first relocation.
#[derive(Clone, Copy)]
pub struct Rela {
    pub section: u32,
    pub first: u32,
}

// Lists the RELA section of each section, in one way through the sections. The list comes with None for each.
pub fn index_relas(object: &[u8], relas: &mut [Option<Rela>])
    requires { SoundObject object.now × Sided object.now relas.old × ((t : ℕ) → get_or relas.old t None ≡ None) }
    ensures { Indexed object.now relas.new }
{
    let n = elf_read::section_count(object);
    let mut number: usize = 0;
    for i in 0..n {
        if elf_read::is_counting_rela(object, i) {
            let h = elf_read::read_section(object, i);
            relas[h.info as usize] = Some(Rela {
                section: i as u32,
                first: number as u32,
            });
            number += elf_read::relocation_entries(object, h);
        }
    }
}

// Lays section t into its part of the image.
pub fn lay_section(
    object: &[u8],
    order: &[u8],
    addresses: &[u64],
    words: &[u64],
    sizes: &[u8],
    relas: &[Option<Rela>],
    t: usize,
    part: &mut [u8],
)
    requires { SoundObject object.now × Placed object.now addresses.now × (relocation_check object.now order.now addresses.now ≡ Ok tt)
        × Worked object.now order.now addresses.now words.now sizes.now
        × (t < section_count object.now) × (loaded (section_at object.now t) ≡ true) × (length part.old ≡ (section_at object.now t).size)
        × (section_count object.now ≤ length addresses.now) × Indexed object.now relas.now }
    ensures { part.new ≡ relocated object.now order.now addresses.now t }
{
    let h = elf_read::read_section(object, t);
    copy(elf_read::section_bytes(object, h), part);
    if let Some(rela) = relas[t] {
        let site = site_at(object, addresses, rela.section as usize);
        apply_all(object, site, words, sizes, rela.first as usize, part);
    }
}
