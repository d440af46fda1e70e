// An undo journal holds the old bytes of each span that an install writes, the newest last.
// This crate has its format, and checks 1 and 15.
#![tactic(auto)]

ghost use Rattle.std.specs.Prelude.{◌≡◌, ◌+◌, ◌≤◌, ◌<◌, not, ◌&&◌, ◌||◌, length};
ghost use Rattle.journal_format.specs.Journals.{max_entries, entry_at, old_at, count, held, entry, is_blank, ends_within, sound, no_room};

use plan_pieces::Span;

const MAX_ENTRIES: usize = 16;

// The sizes in bytes of a number, and of an entry, which is two numbers.
pub const NUMBER_SIZE: usize = 4;

const ENTRY_SIZE: usize = 2 * NUMBER_SIZE;

// Where n, the first entry, k and the old bytes stand.
pub const COUNT_AT: usize = 0;

const ENTRIES_AT: usize = COUNT_AT + NUMBER_SIZE;

pub const HELD_AT: usize = ENTRIES_AT + ENTRY_SIZE * MAX_ENTRIES;

pub const OLD_AT: usize = HELD_AT + NUMBER_SIZE;

// n, the number of standing installs.
pub fn count(journal: &[u8]) -> u32
    requires { old_at ≤ length journal.now }
    ensures { result ≡ count journal.now }
{
    numbers_bytes::read::<u32>(journal, COUNT_AT)
}

// k, the number of old bytes.
pub fn held(journal: &[u8]) -> u32
    requires { old_at ≤ length journal.now }
    ensures { result ≡ held journal.now }
{
    numbers_bytes::read::<u32>(journal, HELD_AT)
}

// Where entry i stands.
pub fn entry_at(i: usize) -> usize
    requires { i < max_entries }
    ensures { result ≡ entry_at i }
{
    ENTRIES_AT + ENTRY_SIZE * i
}

// Entry i.
pub fn read_entry(journal: &[u8], i: usize) -> Span
    requires { (i < max_entries) × (old_at ≤ length journal.now) }
    ensures { result ≡ entry journal.now i }
{
    let at = entry_at(i);
    Span {
        start: numbers_bytes::read::<u32>(journal, at),
        size: numbers_bytes::read::<u32>(journal, at + NUMBER_SIZE),
    }
}

// Whether an entry belongs to a standing install or is zero, and lies inside an image of `len` bytes.
fn entry_allowed(stands: bool, span: Span, len: usize) -> bool
    ensures { result ≡ (stands || is_blank span) && ends_within len span }
{
    (stands | (span == Span::default())) & (span.start as usize + span.size as usize <= len)
}

// Check 1: whether a journal is sound for an image of `len` bytes.
pub fn is_sound(journal: &[u8], len: usize) -> bool
    ensures { result ≡ sound journal.now len }
{
    if journal.len() < OLD_AT {
        return false;
    }
    let n = count(journal) as usize;
    let k = held(journal) as usize;
    if MAX_ENTRIES < n {
        return false;
    }
    if journal.len() < OLD_AT + k {
        return false;
    }
    let mut sum: usize = 0;
    for i in 0..MAX_ENTRIES {
        let span = read_entry(journal, i);
        if !entry_allowed(i < n, span, len) {
            return false;
        }
        sum += span.size as usize;
    }
    k == sum
}

// Check 15: whether a journal has a free entry, and room for the old bytes of a span of this size.
pub fn has_room(journal: &[u8], size: u32) -> bool
    ensures { result ≡ not (no_room (count journal.now) (held journal.now) size (length journal.now)) }
{
    if journal.len() < OLD_AT {
        return false;
    }
    let n = count(journal) as usize;
    let k = held(journal) as usize;
    !((n == MAX_ENTRIES) | (journal.len() < OLD_AT + k + size as usize))
}
