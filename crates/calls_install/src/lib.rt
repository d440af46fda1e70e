// Install and rollback over lent bytes of object, order, image and journal.
#![tactic(auto)]

ghost use Rattle.std.specs.Prelude.{◌≡◌, true, ◌^◌, ◌≤◌, ◌<◌, length};
ghost use Rattle.elf_read.specs.Headers.{class_of};
ghost use Rattle.elf_read.specs.Entries.{relocation_count};
ghost use Rattle.elf_header.specs.Headers.{header_allowed};
ghost use Rattle.order_lookup.specs.Addresses.{addresses_for};
ghost use Rattle.journal_format.specs.Journals.{sound};
ghost use Rattle.journal_history.specs.Calls.{files};
ghost use Rattle.journal_undo.specs.Answers.{answer_of as undo_answer_of};
ghost use Rattle.calls_judgement.specs.Requires.{Placeable, Fitting};
ghost use Rattle.calls_judge.specs.Answers.{answer_of};
ghost use Rattle.calls_judge.specs.Judged.{Lent, Ready};
ghost use Rattle.calls_demands.specs.Ours.{our_install, our_rollback};

use calls_judge::{Refusal, judge_relocations, judge_sections};
use elf_check::MAX_RELOCATIONS;
use elf_read::MAX_SECTIONS;
use journal_undo::RollbackRefusal;
use order_format::Order;
use order_lookup::Addresses;

// Check 15. If it passes, the span's old bytes are recorded, and then the sections are laid.
fn fit(
    object: &[u8],
    order: &Order<'_>,
    addresses: Addresses,
    words: &[u64],
    sizes: &[u8],
    image: &mut [u8],
    journal: &mut [u8],
) -> Result<(), Refusal>
    requires { Fitting object.now order.now.bytes.now order.now.counts (length image.old) × Ready object.now order.now.bytes.now addresses words.now sizes.now × (sound journal.old (length image.old) ≡ true) }
    ensures { record { answer = answer_of result; after = files image.new journal.new }
        ≡ our_install object.now order.now.bytes.now (files image.old journal.old) }
{
    let span = placing_span::span_of(object, addresses, order.counts.base);
    if !journal_format::has_room(journal, span.size) {
        return Err(Refusal::JournalFull);
    }
    journal_undo::save(image, journal, span);
    calls_lay::lay(object, order, addresses, words, sizes, image);
    Ok(())
}

// How many relocations a small object and an object of middle size have at most. What the checks work out is kept in scratch arrays
// on the stack, so that it is worked out once; they are as long as the object needs, because they have to be set to 0.
const FEW_RELOCATIONS: usize = 256;

const SOME_RELOCATIONS: usize = 4096;

// Checks 9 to 15, and laying, with scratch arrays for N relocations.
fn with_scratch<const N: usize>(
    object: &[u8],
    order: &Order<'_>,
    addresses: Addresses,
    image: &mut [u8],
    journal: &mut [u8],
) -> Result<(), Refusal>
    requires { Placeable object.now order.now.bytes.now order.now.counts (length image.old) × (order.now.class ≡ class_of object.now) × (addresses ≡ addresses_for object.now order.now.bytes.now) × (relocation_count object.now ≤ N) × (N < 2 ^ 32) × (sound journal.old (length image.old) ≡ true) }
    ensures { record { answer = answer_of result; after = files image.new journal.new }
        ≡ our_install object.now order.now.bytes.now (files image.old journal.old) }
{
    let mut highs = [0u32; N];
    let mut words = [0u64; N];
    let mut sizes = [0u8; N];
    let placed = judge_relocations(
        object,
        order,
        image.len(),
        addresses,
        &mut highs,
        &mut words,
        &mut sizes,
    )?;
    fit(object, order, placed, &words, &sizes, image, journal)
}

// Checks 9 to 15, and laying, with scratch arrays that are long enough.
fn finish(
    object: &[u8],
    order: &Order<'_>,
    addresses: Addresses,
    image: &mut [u8],
    journal: &mut [u8],
) -> Result<(), Refusal>
    requires { Placeable object.now order.now.bytes.now order.now.counts (length image.old) × (order.now.class ≡ class_of object.now) × (addresses ≡ addresses_for object.now order.now.bytes.now) × (sound journal.old (length image.old) ≡ true) }
    ensures { record { answer = answer_of result; after = files image.new journal.new }
        ≡ our_install object.now order.now.bytes.now (files image.old journal.old) }
{
    let n = elf_read::section_count(object);
    if elf_read::relocations_within(object, n, FEW_RELOCATIONS) {
        return with_scratch::<FEW_RELOCATIONS>(object, order, addresses, image, journal);
    }
    if elf_read::relocations_within(object, n, SOME_RELOCATIONS) {
        return with_scratch::<SOME_RELOCATIONS>(object, order, addresses, image, journal);
    }
    with_scratch::<MAX_RELOCATIONS>(object, order, addresses, image, journal)
}

// Installs an object by an order. Nothing is written before the last check has passed. The header is checked first, because the
// object's class says how the order is read.
pub fn install(
    object: &[u8],
    order: &[u8],
    image: &mut [u8],
    journal: &mut [u8],
) -> Result<(), Refusal>
    ensures { record { answer = answer_of result; after = files image.new journal.new }
        ≡ our_install object.now order.now (files image.old journal.old) }
{
    if !journal_format::is_sound(journal, image.len()) {
        return Err(Refusal::JournalUnsound);
    }
    if !elf_header::check_header(object) {
        return Err(Refusal::BadHeader);
    }
    let class = elf_read::class_of(object);
    let read = Order::read(class, order).ok_or(Refusal::OrderMalformed)?;
    let addresses = judge_sections(object, &read, image.len(), [0u64; MAX_SECTIONS])?;
    finish(object, &read, addresses, image, journal)
}

// The refusal of a call for that of a rollback. It is no `From`: neither type is of this crate.
fn refusal_of(refusal: RollbackRefusal) -> Refusal
    ensures { answer_of (Err result) ≡ undo_answer_of (Err refusal) }
{
    match refusal {
        RollbackRefusal::JournalUnsound => Refusal::JournalUnsound,
        RollbackRefusal::ImageTooLong => Refusal::WindowBroken,
        RollbackRefusal::NothingStands => Refusal::NothingStands,
    }
}

// Undoes the newest standing install.
pub fn rollback(image: &mut [u8], journal: &mut [u8]) -> Result<(), Refusal>
    ensures { record { answer = answer_of result; after = files image.new journal.new }
        ≡ our_rollback (files image.old journal.old) }
{
    journal_undo::rollback(image, journal).map_err(refusal_of)
}
