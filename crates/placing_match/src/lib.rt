// Checks 6 and 7: whether the placements and external values of an order fit the object.
#![tactic(auto)]

ghost use Rattle.std.specs.Prelude.{◌≡◌, ◌^◌, not, ◌&&◌};
ghost use Rattle.elf_read.specs.Headers.{class_of, section_count};
ghost use Rattle.elf_read.specs.Sections.{is_allocated};
ghost use Rattle.elf_check.specs.Requires.{SoundObject};
ghost use Rattle.order_lookup.specs.Addresses.{placed_at};
ghost use Rattle.placing_match.specs.Placements.{lowest, placement_check};
ghost use Rattle.order_lookup.specs.Values.{is_given};
ghost use Rattle.placing_symbols.specs.Requires.{SymbolsOf};
ghost use Rattle.placing_match.specs.Externals.{is_undefined, external_check};

use elf_read::SHN_UNDEF;
use order_format::Order;
use placing_symbols::{Symbols, symbols_of};

// Check 6, where it asks that each allocated section is placed: the lowest that is not.
fn check_allocated(object: &[u8], order: &Order<'_>) -> Result<(), u32>
    requires { SoundObject object.now }
    ensures { result ≡ lowest (λ i. is_allocated object.now i && not (is_given (placed_at order.now.class order.now.bytes.now i))) (section_count object.now) }
{
    let n = elf_read::section_count(object) as u32;
    'search: for i in 0..n {
        let allocated = elf_read::is_allocated_section(object, i);
        let placed = order_lookup::placed_at(order, i).is_some();
        if allocated & !placed {
            return Err(i);
        }
    }
    Ok(())
}

// Check 6, where it asks that each section that is placed is allocated: the lowest number that is placed and names no allocated section.
// The loop is that of `check_externals` over another list: one for both would take the list, the test and what each says of the other.
fn check_placed(object: &[u8], order: &Order<'_>) -> Result<(), u32>
    requires { SoundObject object.now }
    ensures { result ≡ lowest (λ k. is_given (placed_at order.now.class order.now.bytes.now k) && not (is_allocated object.now k)) (2 ^ 32) }
{
    'search: for j in 0..order.counts.placements {
        let e = order.placement(j);
        if !elf_read::is_allocated_section(object, e.index) {
            return Err(e.index);
        }
    }
    Ok(())
}

// Check 6: the lowest number that is placed and not allocated, or allocated and not placed.
pub fn check_placements(object: &[u8], order: &Order<'_>) -> Result<(), u32>
    requires { SoundObject object.now × (order.now.class ≡ class_of object.now) }
    ensures { result ≡ placement_check object.now order.now.bytes.now }
{
    let unplaced = check_allocated(object, order);
    let extra = check_placed(object, order);
    match unplaced {
        Ok(()) => extra,
        Err(i) => match extra {
            Ok(()) => Err(i),
            Err(k) => Err(i.min(k)),
        },
    }
}

// Whether a number names an undefined symbol.
fn is_undefined(object: &[u8], symbols: Symbols, k: u32) -> bool
    requires { SoundObject object.now × SymbolsOf object.now symbols }
    ensures { result ≡ is_undefined object.now k }
{
    let at = k as usize;
    if symbols.count <= at {
        return false;
    }
    let table = symbols.table;
    let symbol = elf_read::read_symbol(object, table, at);
    (0 < k) & (symbol.section == SHN_UNDEF)
}

// Check 7: the lowest symbol that has an external value and is not undefined.
pub fn check_externals(object: &[u8], order: &Order<'_>) -> Result<(), u32>
    requires { SoundObject object.now × (order.now.class ≡ class_of object.now) }
    ensures { result ≡ external_check object.now order.now.bytes.now }
{
    let symbols = symbols_of(object);
    'search: for j in 0..order.counts.externals {
        let e = order.external(j);
        if !is_undefined(object, symbols, e.index) {
            return Err(e.index);
        }
    }
    Ok(())
}
