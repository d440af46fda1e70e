// What a relocation is calculated from: P, and the paired high half of a PCREL_LO12.
#![tactic(auto)]

pub mod highs;
pub mod pairs;

ghost use Rattle.std.specs.Prelude.{◌≡◌};
ghost use Rattle.numbers_definitions.specs.Whole.{plus};

use elf_read::Relocation;
use numbers_arithmetic::add64;
use numbers_definitions::Address;
use relocations_rela::sites::Site;

// P: the place's address. For a non-marker it is below the end of memory, so that the addition does not wrap.
pub fn place_of(site: Site, here: Relocation) -> Address
    ensures { result.0 ≡ plus 64 site.address.0 here.offset.0 }
{
    Address(add64(site.address.0, here.offset.0))
}
