// Check 12: the paired high half of a PCREL_LO12.
ghost use Rattle.std.specs.Prelude.{◌≡◌};
ghost use Rattle.relocations_values.specs.Pairs.{pair_of};
ghost use Rattle.relocations_values.specs.Highs.{Listed};
ghost use Rattle.relocations_values.specs.Sorting.{keys, Stands, NotBelow};
ghost use Rattle.relocations_rela.specs.Requires.{SoundSite};

use numbers_definitions::SectionOffset;
use relocations_rela::sites::Site;

// The offset of the relocation whose number stands at place i.
fn offset_at(object: &[u8], site: Site, numbers: &[u32], i: usize) -> SectionOffset
    requires { Stands object.now site numbers.now i }
    ensures { result.0 ≡ keys object.now site numbers.now i }
{
    elf_read::read_offset(object, site.rela, numbers[i] as usize)
}

// The first of the m listed high halves whose offset is not below the given one, by halving. It is `low` or one of the places
// after it, of which there are `more` with itself. It is not std's `partition_point`, whose test may be called at any number: with
// the bound that the test would have to look at, an object that is half pairs takes 8 % more instructions.
fn first_not_below(
    object: &[u8],
    site: Site,
    highs: &[u32],
    m: usize,
    offset: SectionOffset,
) -> usize
    requires { SoundSite object.now site × Listed object.now site highs.now m }
    ensures { NotBelow (keys object.now site highs.now) m offset.0 result }
{
    let mut low: usize = 0;
    let mut more: usize = m + 1;
    while 1 < more {
        let half = more / 2;
        let here = offset_at(object, site, highs, low + half - 1);
        if here.0 < offset.0 {
            low += half;
            more -= half;
        } else {
            more = half;
        }
    }
    low
}

// The one high half at an offset, or nothing if there is not exactly one.
// The contract speaks of the whole array and of m, as `Listed` does. Offsets are compared by their numbers, as contracts do.
pub fn pair_at(
    object: &[u8],
    site: Site,
    highs: &[u32],
    m: usize,
    offset: SectionOffset,
) -> Option<usize>
    requires { SoundSite object.now site × Listed object.now site highs.now m }
    ensures { result ≡ pair_of object.now site offset }
{
    let first = first_not_below(object, site, highs, m, offset);
    let mut pair = None;
    'search: for i in first..m {
        if offset_at(object, site, highs, i).0 != offset.0 {
            break 'search;
        }
        if pair.is_some() {
            return None;
        }
        pair = Some(highs[i] as usize);
    }
    pair
}
