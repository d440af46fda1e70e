// Checks 9 to 14 over all relocations: the first relocation that breaks a rule, and which rule it breaks. The bytes that each
// relocation leaves are worked out on the way, so that laying only has to store them.
ghost use Rattle.std.specs.Prelude.{◌≡◌, List, ℕ, ◌+◌, ◌^◌, ◌≤◌, ◌<◌, length};
ghost use Rattle.elf_read.specs.Headers.{section_count};
ghost use Rattle.elf_check.specs.Requires.{SoundObject};
ghost use Rattle.placing_symbols.specs.Requires.{SymbolsOf};
ghost use Rattle.placing_symbols.specs.Arrays.{Valued};
ghost use Rattle.relocations_rela.specs.Sites.{count};
ghost use Rattle.relocations_rela.specs.Requires.{SoundSite, Placed};
ghost use Rattle.relocations_rules.specs.Search.{relocation_check};
ghost use Rattle.relocations_check_all.specs.Sites.{WordedBelow, Roomy, SiteChecked};

use order_lookup::Addresses;
use placing_symbols::{Reason, Symbols};
use relocations_check_one::Source;
use relocations_rela::shape::no_trail;
use relocations_rela::sites::{Site, site_at};
use relocations_rules::Broken;
use relocations_types::decide;

// Checks the relocations of a site in file order, each through all rules before the next, and stores what they leave from
// `base` on, which is the number of the first of them. Words and sizes are two lists: one list of both would need 224 KB more stack,
// which the C header does not allow.
fn check_site(
    source: &Source,
    site: Site,
    highs: &mut [u32],
    words: &mut [u64],
    sizes: &mut [u8],
    base: usize,
) -> Result<(), Broken>
    requires { SoundSite source.now.object.now site × (count source.now.object.now site ≤ length highs.old) × (length highs.old < 2 ^ 32)
        × (base + count source.now.object.now site ≤ length words.old) × (base + count source.now.object.now site ≤ length sizes.old) × (length words.old < 2 ^ 32) }
    ensures { ((order addresses : List ℕ) → Valued source.now.object.now order addresses source.now.values.now source.now.states.now
        → SiteChecked source.now.object.now order addresses site base words.old sizes.old words.new sizes.new result)
        × (length words.new ≡ length words.old) × (length sizes.new ≡ length sizes.old)
        × (length highs.new ≡ length highs.old) }
{
    let class = elf_read::class_of(source.object);
    let n = elf_read::relocation_entries(source.object, site.rela);
    let mut trail = no_trail();
    let mut last: u64 = 0;
    let mut known: Option<usize> = None;
    for j in 0..n {
        let here = elf_read::read_relocation(source.object, site.rela, j);
        let decision = decide(class, site.rvc, here.kind);
        // A finding of check_one has no number yet: it gets that of the relocation here.
        let step = match source.check_one(site, highs, &mut known, trail, decision, here, last, j) {
            Ok(step) => step,
            Err(finding) => {
                return Err(Broken {
                    finding,
                    relocation: (base + j) as u32,
                });
            }
        };
        let k = base + j;
        words[k] = step.word;
        sizes[k] = step.size as u8;
        trail = step.trail;
        last = step.last;
    }
    Ok(())
}

// Checks 9 to 14. Relocations go by RELA section, then in file order. If they pass, the words and sizes of all relocations are
// stored, by number.
pub fn check_relocations(
    object: &[u8],
    order: &[u8],
    symbols: Symbols,
    addresses: Addresses,
    values: &[u64],
    states: &[Result<(), Reason>],
    highs: &mut [u32],
    words: &mut [u64],
    sizes: &mut [u8],
) -> Result<(), Broken>
    requires { SoundObject object.now × SymbolsOf object.now symbols × Placed object.now addresses × Valued object.now order.now addresses values.now states.now
        × Roomy object.now highs.old × Roomy object.now words.old × Roomy object.now sizes.old }
    ensures { (result ≡ relocation_check object.now order.now addresses)
        × (result ≡ Ok tt → WordedBelow object.now order.now addresses (section_count object.now) words.new sizes.new)
        × (length highs.new ≡ length highs.old) × (length words.new ≡ length words.old) × (length sizes.new ≡ length sizes.old) }
{
    let n = elf_read::section_count(object);
    let source = Source {
        object,
        symbols,
        values,
        states,
    };
    let mut number: usize = 0;
    'search: for i in 0..n {
        if !elf_read::is_counting_rela(object, i) {
            continue 'search;
        }
        let site = site_at(object, &addresses, i);
        check_site(&source, site, highs, words, sizes, number)?;
        number += elf_read::relocation_entries(object, site.rela);
    }
    Ok(())
}
