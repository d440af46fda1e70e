// Saving a span into the journal, and rolling it back.
#![tactic(auto)]

ghost use Rattle.std.specs.Prelude.{◌≡◌, ◌+◌, ◌≤◌, ◌<◌, length, replicate};
ghost use Rattle.std.proofs.lemmas.List.Edits.{sets};
ghost use Rattle.journal_format.specs.Journals.{max_entries, old_at, entry_at, entry_bytes};
ghost use Rattle.journal_history.specs.Writes.{saved};
ghost use Rattle.journal_history.specs.Requires.{Savable, Undoable};
ghost use Rattle.journal_history.specs.Calls.{rolled_back, rollback as «rolled-back»};
ghost use Rattle.journal_undo.specs.Answers.{answer_of};

use journal_format::{COUNT_AT, HELD_AT, NUMBER_SIZE, OLD_AT, entry_at};
use plan_pieces::Span;

// Why a rollback is refused.
#[derive(Clone, Copy)]
pub enum RollbackRefusal {
    JournalUnsound,
    ImageTooLong,
    NothingStands,
}

// Writes n zero bytes from `at` on.
fn clear(dst: &mut [u8], at: usize, n: usize)
    requires { at + n ≤ length dst.old }
    ensures { dst.new ≡ sets dst.old at (replicate n 0) }
{
    dst[at..at + n].fill(0);
}

// Sets entry i.
fn write_entry(journal: &mut [u8], i: usize, span: Span)
    requires { (i < max_entries) × (old_at ≤ length journal.old) }
    ensures { journal.new ≡ sets journal.old (entry_at i) (entry_bytes span) }
{
    let at = entry_at(i);
    numbers_bytes::write(journal, at, span.start);
    numbers_bytes::write(journal, at + NUMBER_SIZE, span.size);
}

// Records a span of the image: its old bytes, then its entry, then k, then n.
pub fn save(image: &[u8], journal: &mut [u8], span: Span)
    requires { Savable image.now journal.old span }
    ensures { journal.new ≡ saved image.now journal.old span }
{
    let n = journal_format::count(journal);
    let k = journal_format::held(journal);
    numbers_bytes::copy(
        journal,
        OLD_AT + k as usize,
        image,
        span.start as usize,
        span.size as usize,
    );
    write_entry(journal, n as usize, span);
    numbers_bytes::write(journal, HELD_AT, k + span.size);
    numbers_bytes::write(journal, COUNT_AT, n + 1);
}

// Undoes the newest install. Writes its old bytes back into the image, then n, then k, then zeros over its entry and
// over the released bytes.
fn undo(image: &mut [u8], journal: &mut [u8])
    requires { Undoable image.old journal.old }
    ensures { record { image = image.new; journal = journal.new }
        ≡ rolled_back (record { image = image.old; journal = journal.old }) }
{
    let i = journal_format::count(journal) - 1;
    let span = journal_format::read_entry(journal, i as usize);
    let k = journal_format::held(journal) - span.size;
    numbers_bytes::copy(
        image,
        span.start as usize,
        journal,
        OLD_AT + k as usize,
        span.size as usize,
    );
    numbers_bytes::write(journal, COUNT_AT, i);
    numbers_bytes::write(journal, HELD_AT, k);
    write_entry(journal, i as usize, Span::default());
    clear(journal, OLD_AT + k as usize, span.size as usize);
}

// Undoes the newest standing install.
pub fn rollback(image: &mut [u8], journal: &mut [u8]) -> Result<(), RollbackRefusal>
    ensures { record { answer = answer_of result; after = record { image = image.new; journal = journal.new } }
        ≡ «rolled-back» (record { image = image.old; journal = journal.old }) }
{
    if !journal_format::is_sound(journal, image.len()) {
        return Err(RollbackRefusal::JournalUnsound);
    }
    if !order_format::length_allowed(image.len()) {
        return Err(RollbackRefusal::ImageTooLong);
    }
    if journal_format::count(journal) == 0 {
        return Err(RollbackRefusal::NothingStands);
    }
    undo(image, journal);
    Ok(())
}
