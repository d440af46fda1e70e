// Lays the plan of an install into the image. Every check has passed, so nothing here can fail.
#![tactic(auto)]

ghost use Rattle.std.specs.Prelude.{◌≡◌, true, ◌+◌, ◌≤◌, ◌<◌, length};
ghost use Rattle.std.proofs.lemmas.List.Edits.{sets};
ghost use Rattle.order_lookup.specs.Addresses.{addresses_for};
ghost use Rattle.elf_read.specs.Headers.{section_count};
ghost use Rattle.elf_read.specs.Sections.{section_at, loaded};
ghost use Rattle.plan_pieces.specs.Plans.{overwritten};
ghost use Rattle.relocations_bytes.specs.Sections.{relocated};
ghost use Rattle.relocations_check_all.specs.Sites.{Worked};
ghost use Rattle.relocations_apply.specs.Requires.{Indexed};
ghost use Rattle.calls_judgement.specs.Judgement.{plan_of};
ghost use Rattle.calls_judgement.specs.Requires.{Fitting, with_section};

use elf_read::MAX_SECTIONS;
use order_format::Order;
use order_lookup::Addresses;
use placing_check::has_bytes;
use relocations_apply::Rela;

// What is laid: an object and an order, the address of each section, the words of all relocations and their sizes, and the RELA
// section of each section.
#[derive(Clone, Copy)]
struct Laying<'a> {
    object: &'a [u8],
    order: &'a Order<'a>,
    addresses: &'a [u64],
    words: &'a [u64],
    sizes: &'a [u8],
    relas: &'a [Option<Rela>],
    ghost addresses_are: { addresses.now ≡ addresses_for object.now order.now.bytes.now },
    ghost worked: { Worked object.now order.now.bytes.now addresses.now words.now sizes.now },
    ghost long: { section_count object.now ≤ length addresses.now },
    ghost indexed: { Indexed object.now relas.now },
}

impl Laying<'_> {
    // Lays section t into the image from `at` on.
    fn lay_at(&self, t: usize, at: usize, image: &mut [u8])
        requires { Fitting self.now.object.now self.now.order.now.bytes.now self.now.order.now.counts (length image.old) × (t < section_count self.now.object.now) × (loaded (section_at self.now.object.now t) ≡ true) × (at + (section_at self.now.object.now t).size ≤ length image.old) }
        ensures { image.new ≡ sets image.old at (relocated self.now.object.now self.now.order.now.bytes.now (addresses_for self.now.object.now self.now.order.now.bytes.now) t) }
    {
        let h = elf_read::read_section(self.object, t);
        let end = at + h.size as usize;
        relocations_apply::lay_section(
            self.object,
            self.order.bytes,
            self.addresses,
            self.words,
            self.sizes,
            self.relas,
            t,
            &mut image[at..end],
        );
    }

    // Lays section t into the image, if it has bytes there.
    fn lay_one(&self, t: usize, image: &mut [u8])
        requires { Fitting self.now.object.now self.now.order.now.bytes.now self.now.order.now.counts (length image.old) × (t < section_count self.now.object.now) }
        ensures { image.new ≡ with_section self.now.object.now self.now.order.now.bytes.now t image.old }
    {
        let h = elf_read::read_section(self.object, t);
        if !has_bytes(h) {
            return;
        }
        let at = self.addresses[t] - self.order.counts.base.0;
        self.lay_at(t, at as usize, image);
    }

    // Lays the loaded sections into the image.
    fn lay_all(&self, image: &mut [u8])
        requires { Fitting self.now.object.now self.now.order.now.bytes.now self.now.order.now.counts (length image.old) }
        ensures { image.new ≡ overwritten image.old (plan_of self.now.object.now self.now.order.now.bytes.now) }
    {
        let n = elf_read::section_count(self.object);
        for t in 0..n {
            self.lay_one(t, image);
        }
    }
}

// Lays the loaded sections into the image, each after its relocations, whose words were worked out before.
pub fn lay(
    object: &[u8],
    order: &Order<'_>,
    addresses: Addresses,
    words: &[u64],
    sizes: &[u8],
    image: &mut [u8],
)
    requires { Fitting object.now order.now.bytes.now order.now.counts (length image.old) × (addresses ≡ addresses_for object.now order.now.bytes.now) × Worked object.now order.now.bytes.now addresses words.now sizes.now }
    ensures { image.new ≡ overwritten image.old (plan_of object.now order.now.bytes.now) }
{
    let mut relas = [None; MAX_SECTIONS];
    relocations_apply::index_relas(object, &mut relas);
    let laying = Laying {
        object,
        order,
        addresses: &addresses,
        words,
        sizes,
        relas: &relas,
    };
    laying.lay_all(image);
}
