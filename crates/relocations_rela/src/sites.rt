// RELA sections and what they relocate.
ghost use Rattle.std.specs.Prelude.{◌≡◌, true, ◌≤◌, ◌<◌, length};
ghost use Rattle.elf_read.specs.Headers.{section_count};
ghost use Rattle.elf_read.specs.Sections.{counting_rela};
ghost use Rattle.elf_check.specs.Requires.{SoundObject};
ghost use Rattle.relocations_rela.specs.Sites.{site_at};

use elf_read::Section;
use numbers_definitions::Address;

// A RELA section, the section that it relocates (document 01: the target row), the number and address of that section, and whether bit 0
// of the object's e_flags is set, so that nobody asks for it at each relocation.
#[derive(Clone, Copy)]
pub struct Site {
    pub rela: Section,
    pub target: Section,
    pub index: u32,
    pub address: Address,
    pub rvc: bool,
}

// The site of RELA section i. The address array is lent: it would be copied for each site.
pub fn site_at(object: &[u8], addresses: &[u64], i: usize) -> Site
    requires { SoundObject object.now × (i < section_count object.now) × (counting_rela object.now i ≡ true) × (section_count object.now ≤ length addresses.now) }
    ensures { result ≡ site_at object.now addresses.now i }
{
    let rela = elf_read::read_section(object, i);
    let index = rela.info as usize;
    let target = elf_read::read_section(object, index);
    Site {
        rela,
        target,
        index: rela.info,
        address: Address(addresses[index]),
        rvc: elf_read::has_rvc(object),
    }
}
