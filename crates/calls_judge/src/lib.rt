// Why a call is refused, and the judgement: check 3 and checks 5 to 14 over lent bytes of object and order.
#![tactic(auto)]

ghost use Rattle.std.specs.Prelude.{◌≡◌, true, Err, ◌^◌, ◌≤◌, ◌<◌};
ghost use Rattle.elf_read.specs.Headers.{class_of};
ghost use Rattle.elf_header.specs.Headers.{header_allowed};
ghost use Rattle.placing_symbols.specs.Requires.{SymbolsOf};
ghost use Rattle.placing_symbols.specs.Arrays.{Blank};
ghost use Rattle.placing_match.specs.Placements.{placement_check};
ghost use Rattle.relocations_rules.specs.Search.{number, reason};
ghost use Rattle.calls_judgement.specs.Requires.{Readable, Named, Placeable};
ghost use Rattle.plan_pieces.specs.Answers.{says, says_why, packed};
ghost use Rattle.order_lookup.specs.Addresses.{no_addresses, addresses_for};
ghost use Rattle.calls_judge.specs.Answers.{answer_of};
ghost use Rattle.calls_judge.specs.Judged.{Lent, PlacedWell, JudgedWell};

use elf_check::{MAX_SYMBOLS, check_sections};
use order_format::Order;
use order_lookup::{Addresses, fill_addresses};
use placing_check::check_placing;
use placing_match::{check_externals, check_placements};
use placing_symbols::{Reason, Symbols, reason_number, symbol_values};
use relocations_check_all::search::check_relocations;
use relocations_rules::{Broken, Finding};

// Why a call changes nothing. The number in a refusal is that of a section, of a symbol, or of a relocation, counted from 0
// over all relocations; a symbol that does not resolve comes with the reason.
#[derive(Clone, Copy)]
pub enum Refusal {
    JournalUnsound,
    OrderMalformed,
    WindowBroken,
    BadHeader,
    BadSection(u32),
    PlacementsDiffer(u32),
    WrongExternal(u32),
    Misplaced(u32),
    RelocationShape(u32),
    SymbolUnresolved(u32, Reason),
    WrongInstruction(u32),
    NotOnePair(u32),
    OutOfReach(u32),
    PaddingOffBoundary(u32),
    JournalFull,
    NothingStands,
}

impl From<Broken> for Refusal {
    ghost from_gives = { λ broken refusal. answer_of (Err refusal) ≡ says_why (number broken.finding) broken.relocation (reason broken.finding) };

    fn from(broken: Broken) -> Refusal {
        let k = broken.relocation;
        match broken.finding {
            Finding::BadShape => Refusal::RelocationShape(k),
            Finding::BadSymbol(why) => Refusal::SymbolUnresolved(k, why),
            Finding::BadForm => Refusal::WrongInstruction(k),
            Finding::NoPair => Refusal::NotOnePair(k),
            Finding::OutOfReach => Refusal::OutOfReach(k),
            Finding::OffBoundary => Refusal::PaddingOffBoundary(k),
        }
    }
}

// How many symbols most objects have at most. Arrays for more are set to 0 only where they are needed.
const FEW_SYMBOLS: usize = 1024;

// Checks 9 to 14. `values` and `states` come as they are before anything is stored: S is worked out for every symbol first.
// `Placeable`, `SymbolsOf`, `Blank` and `Lent` are records of one word each, of what the steps before have shown.
fn judge_by_values(
    object: &[u8],
    order: &Order<'_>,
    len: usize,
    addresses: Addresses,
    symbols: Symbols,
    values: &mut [u64],
    states: &mut [Result<(), Reason>],
    highs: &mut [u32],
    words: &mut [u64],
    sizes: &mut [u8],
) -> Result<Addresses, Refusal>
    requires { Placeable object.now order.now.bytes.now order.now.counts len × (order.now.class ≡ class_of object.now) × (addresses ≡ addresses_for object.now order.now.bytes.now) × SymbolsOf object.now symbols × Blank object.now values.old states.old
        × Lent object.now highs.old words.old sizes.old }
    ensures { JudgedWell object.now order.now.bytes.now len result words.new sizes.new }
{
    let placed = symbol_values(object, order, symbols, addresses, values, states);
    check_relocations(
        object,
        order.bytes,
        symbols,
        placed,
        values,
        states,
        highs,
        words,
        sizes,
    )?;
    Ok(placed)
}

// The same, with arrays for the values of N symbols.
fn judge_with<const N: usize>(
    object: &[u8],
    order: &Order<'_>,
    len: usize,
    addresses: Addresses,
    symbols: Symbols,
    highs: &mut [u32],
    words: &mut [u64],
    sizes: &mut [u8],
) -> Result<Addresses, Refusal>
    requires { Placeable object.now order.now.bytes.now order.now.counts len × (order.now.class ≡ class_of object.now) × (addresses ≡ addresses_for object.now order.now.bytes.now) × SymbolsOf object.now symbols × (0 < N) × (N < 2 ^ 32) × (symbols.count ≤ N)
        × Lent object.now highs.old words.old sizes.old }
    ensures { JudgedWell object.now order.now.bytes.now len result words.new sizes.new }
{
    let mut values = [0u64; N];
    let mut states = [Err(Reason::PastTable); N];
    judge_by_values(
        object,
        order,
        len,
        addresses,
        symbols,
        &mut values,
        &mut states,
        highs,
        words,
        sizes,
    )
}

// Checks 9 to 14, of an object and an order that pass the others. If every check passes, `words` and `sizes` say what each
// relocation stores, and `addresses` goes back as it came.
// `highs`, `words` and `sizes` are three parameters: where a struct holds a `&mut`, only its length is known once it was lent.
pub fn judge_relocations(
    object: &[u8],
    order: &Order<'_>,
    len: usize,
    addresses: Addresses,
    highs: &mut [u32],
    words: &mut [u64],
    sizes: &mut [u8],
) -> Result<Addresses, Refusal>
    requires { Placeable object.now order.now.bytes.now order.now.counts len × (order.now.class ≡ class_of object.now) × (addresses ≡ addresses_for object.now order.now.bytes.now) × Lent object.now highs.old words.old sizes.old }
    ensures { JudgedWell object.now order.now.bytes.now len result words.new sizes.new }
{
    let symbols = placing_symbols::symbols_of(object);
    if symbols.count <= FEW_SYMBOLS {
        return judge_with::<FEW_SYMBOLS>(
            object, order, len, addresses, symbols, highs, words, sizes,
        );
    }
    judge_with::<MAX_SYMBOLS>(object, order, len, addresses, symbols, highs, words, sizes)
}

// Check 3 and checks 5 to 8 for an image of `len` bytes, of an object whose header passes check 4, by an order that has been read.
// `addresses` comes with zeros, and goes back filled if every check passes.
pub fn judge_sections(
    object: &[u8],
    order: &Order<'_>,
    len: usize,
    addresses: Addresses,
) -> Result<Addresses, Refusal>
    requires { (header_allowed object.now ≡ true) × (order.now.class ≡ class_of object.now) × (addresses ≡ no_addresses) }
    ensures { PlacedWell object.now order.now.bytes.now order.now.counts len result }
{
    if !order_format::window_allowed(order.class, order.counts.base, len) {
        return Err(Refusal::WindowBroken);
    }
    check_sections(object).map_err(Refusal::BadSection)?;
    check_placements(object, order).map_err(Refusal::PlacementsDiffer)?;
    check_externals(object, order).map_err(Refusal::WrongExternal)?;
    let filled = fill_addresses(addresses, order);
    match check_placing(object, filled, order.counts.base, len) {
        Ok(placed) => Ok(placed),
        Err(found) => Err(Refusal::Misplaced(found.section)),
    }
}

// A number and a place as one number: the number in the low eight bits, the place in the upper 32.
fn pack(number: u8, place: u32) -> u64
    ensures { result ≡ packed (says number place) }
{
    pack_reason(number, place, 0)
}

// The same with a reason, which stands in the eight bits above the number.
fn pack_reason(number: u8, place: u32, reason: u8) -> u64
    ensures { result ≡ packed (says_why number place reason) }
{
    number as u64 + 256 * reason as u64 + 4294967296 * place as u64
}

// Number, place and reason of an answer, as one number.
// The C interface has these numbers.
pub fn code_of(answer: Result<(), Refusal>) -> u64
    ensures { result ≡ packed (answer_of answer) }
{
    match answer {
        Ok(()) => pack(0, 0),
        Err(Refusal::JournalUnsound) => pack(1, 0),
        Err(Refusal::OrderMalformed) => pack(2, 0),
        Err(Refusal::WindowBroken) => pack(3, 0),
        Err(Refusal::BadHeader) => pack(4, 0),
        Err(Refusal::BadSection(section)) => pack(5, section),
        Err(Refusal::PlacementsDiffer(section)) => pack(6, section),
        Err(Refusal::WrongExternal(symbol)) => pack(7, symbol),
        Err(Refusal::Misplaced(section)) => pack(8, section),
        Err(Refusal::RelocationShape(relocation)) => pack(9, relocation),
        Err(Refusal::SymbolUnresolved(relocation, reason)) => {
            pack_reason(10, relocation, reason_number(reason))
        }
        Err(Refusal::WrongInstruction(relocation)) => pack(11, relocation),
        Err(Refusal::NotOnePair(relocation)) => pack(12, relocation),
        Err(Refusal::OutOfReach(relocation)) => pack(13, relocation),
        Err(Refusal::PaddingOffBoundary(relocation)) => pack(14, relocation),
        Err(Refusal::JournalFull) => pack(15, 0),
        Err(Refusal::NothingStands) => pack(16, 0),
    }
}
