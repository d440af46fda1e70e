// Check 9: type, offset, overlap and addend of a relocation.
ghost use Rattle.std.specs.Prelude.{◌≡◌, ◌+◌, ◌^◌, ◌<◌};
ghost use Rattle.numbers_definitions.specs.Whole.{signed};
ghost use Rattle.relocations_decisions.specs.Decisions.{touched, stack_width};
ghost use Rattle.relocations_rela.specs.Shape.{addend_well};
ghost use Rattle.relocations_rela.specs.Trails.{no_trail, advanced, shares_width, shares_by, shape_by};

use elf_read::Relocation;
use numbers_arithmetic::ends_within;
use numbers_definitions::SectionOffset;
use relocations_decisions::{bytes_touched, is_refused, is_store, needs_pair};
use relocations_types::Decision;

// What check 9 has to know about the relocations before: the offset of the one before; and of the previous non-marker
// the offset, the end, and the width as a stack. What is not there counts as 0: with Options in it, the trail would have padding,
// which is copied with it at each relocation.
#[derive(Clone, Copy)]
pub struct Trail {
    pub offset: u64,
    pub start: u64,
    pub end: u64,
    pub width: u64,
}

// The trail before the first relocation.
pub fn no_trail() -> Trail
    ensures { result ≡ no_trail }
{
    Trail {
        offset: 0,
        start: 0,
        end: 0,
        width: 0,
    }
}

// The trail with one more relocation. `width` is its width as a stack.
pub fn advance(trail: Trail, decision: Decision, width: u64, here: Relocation) -> Trail
    requires { (width ≡ stack_width decision) × (here.offset.0 + touched decision < 2 ^ 64) }
    ensures { result ≡ advanced trail decision here }
{
    let offset = here.offset.0;
    if is_store(decision) {
        Trail {
            offset,
            start: offset,
            end: offset + bytes_touched(decision) as u64,
            width,
        }
    } else {
        Trail { offset, ..trail }
    }
}

// Whether a relocation and the previous non-marker are ADD, SUB or SET at one place with one width. `width` is that of the
// relocation as a stack.
pub fn shares_place(trail: Trail, width: u64, at: SectionOffset) -> bool
    ensures { result ≡ shares_width trail width at.0 }
{
    (trail.start == at.0) & (0 < trail.width) & (trail.width == width)
}

// The addend rules, at an offset in a section of some size.
fn is_addend_allowed(decision: Decision, at: SectionOffset, size: u64, addend: u64) -> bool
    ensures { result ≡ addend_well decision at.0 size (signed 64 addend) }
{
    match decision {
        Decision::Align => is_padding(at, size, addend),
        Decision::Store(_) => !needs_pair(decision) | (addend == 0),
        Decision::Marker | Decision::Refused => true,
    }
}

// Whether ALIGN's addend is even, from 0 to 4,094, and its padding ends in the section.
fn is_padding(at: SectionOffset, size: u64, addend: u64) -> bool
    ensures { result ≡ addend_well Decision.Align at.0 size (signed 64 addend) }
{
    if 4094 < addend {
        return false;
    }
    (addend % 2 == 0) & ends_within(at.0, addend, size)
}

// Check 9. `shares` tells whether the relocation shares its place with the previous non-marker.
pub fn is_shape_well(
    trail: Trail,
    decision: Decision,
    shares: bool,
    here: Relocation,
    size: u64,
) -> bool
    requires { shares ≡ shares_by trail decision here.offset.0 }
    ensures { result ≡ shape_by trail decision here size }
{
    let offset = here.offset.0;
    let rises = trail.offset <= offset;
    let inside = ends_within(offset, bytes_touched(decision) as u64, size);
    let clear = !is_store(decision) | (trail.end <= offset) | shares;
    !is_refused(decision)
        & rises
        & inside
        & clear
        & is_addend_allowed(decision, here.offset, size, here.addend)
}
