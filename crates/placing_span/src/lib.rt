// The span of an install: the part of the image that its loaded sections take.
#![tactic(auto)]

ghost use Rattle.std.specs.Prelude.{◌≡◌, ◌+◌, ◌-◌, ◌<◌};
ghost use Rattle.elf_read.specs.Headers.{section_count};
ghost use Rattle.elf_check.specs.Requires.{SoundObject};
ghost use Rattle.placing_span.specs.Spans.{highest, span_of};

use numbers_definitions::Address;
use order_lookup::Addresses;
use placing_check::has_bytes;
use plan_pieces::Span;

// start + size - base, or 0 where the base is larger. Nothing wraps, also where start + size is 2^64.
fn end_from(start: u64, size: u64, base: u64) -> u64
    requires { start + size - base < 4294967296 }
    ensures { result ≡ start + size - base }
{
    if base <= start {
        start - base + size
    } else {
        size.saturating_sub(base - start)
    }
}

// The span of an install, counted from the image's first byte. If check 8 passes, it lies inside the image.
pub fn span_of(object: &[u8], addresses: Addresses, base: Address) -> Span
    requires { SoundObject object.now × (highest object.now addresses base.0 (section_count object.now) < 4294967296) }
    ensures { result ≡ span_of object.now addresses base.0 }
{
    // The lowest laid byte of the sections so far, and the end of the highest.
    let mut lowest = u64::MAX;
    let mut end: u64 = 0;
    for i in 0..elf_read::section_count(object) {
        let h = elf_read::read_section(object, i);
        if has_bytes(h) {
            let address = addresses[i];
            lowest = address.saturating_sub(base.0).min(lowest);
            end = end_from(address, h.size, base.0).max(end);
        }
    }
    // If none is laid, the span has start 0 and size 0.
    let start = lowest.min(end);
    Span {
        start: start as u32,
        size: (end - start) as u32,
    }
}
