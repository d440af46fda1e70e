// The high halves of a site, listed once, so that each low half finds its pair by halving.
ghost use Rattle.std.specs.Prelude.{◌≡◌, ◌^◌, ◌≤◌, ◌<◌, length};
ghost use Rattle.relocations_rela.specs.Sites.{count};
ghost use Rattle.relocations_rela.specs.Requires.{SoundSite};
ghost use Rattle.relocations_values.specs.Highs.{Listed};
ghost use Rattle.relocations_values.specs.Gathered.{Gathers, key_of};

use relocations_rela::sites::Site;
use relocations_types::is_pairing;

// How many high halves there are, and whether the offset of one is below that of the one before it.
// It is no Option: where an offset falls, the count is needed too, for the sort.
#[derive(Clone, Copy)]
struct Gathered {
    count: usize,
    falls: bool,
}

// Gathers the numbers of the high halves of a site, in the order of the file.
fn gather(object: &[u8], site: Site, highs: &mut [u32]) -> Gathered
    requires { SoundSite object.now site × (count object.now site ≤ length highs.old) × (length highs.old < 2 ^ 32) }
    ensures { Gathers object.now site highs.new result.count result.falls }
{
    let mut m: usize = 0;
    let mut last: u64 = 0;
    let mut falls = false;
    for k in 0..elf_read::relocation_entries(object, site.rela) {
        if is_pairing(elf_read::read_kind(object, site.rela, k)) {
            let offset = elf_read::read_offset(object, site.rela, k);
            highs[m] = k as u32;
            m += 1;
            falls = falls | (offset.0 < last);
            last = offset.0;
        }
    }
    Gathered { count: m, falls }
}

// The offset of relocation k, or 0 if there is none: a sort may ask for the key of any number.
fn key_of(object: &[u8], site: Site, k: u32) -> u64
    requires { SoundSite object.now site }
    ensures { result ≡ key_of object.now site k }
{
    let k = k as usize;
    if k < elf_read::relocation_entries(object, site.rela) {
        return elf_read::read_offset(object, site.rela, k).0;
    }
    0
}

// Lists the high halves of a site, in the order of their offsets. Returns how many there are. They are sorted only where
// an offset falls, in an object that is refused. `highs` is a scratch array, with a count of those that are listed: there is no heap.
pub fn list_highs(object: &[u8], site: Site, highs: &mut [u32]) -> usize
    requires { SoundSite object.now site × (count object.now site ≤ length highs.old) × (length highs.old < 2 ^ 32) }
    ensures { Listed object.now site highs.new result × (length highs.new ≡ length highs.old) }
{
    let gathered = gather(object, site, highs);
    if gathered.falls {
        highs[..gathered.count].sort_unstable_by_key(|k| key_of(object, site, *k));
    }
    gathered.count
}
