// A list of calls as bytes: which bytes are a list, and what each call is.
#![tactic(auto)]

ghost use Rattle.std.specs.Prelude.{◌≡◌, ℕ, MatchOption, false, cond, ◌+◌, ◌≤◌, ◌<◌, length};
ghost use Rattle.numbers_definitions.specs.Bytes.{le_at, part};
ghost use Rattle.calls_replay.specs.Lists.{call_count, is_call, is_list};
ghost use Rattle.calls_replay.specs.Requires.{IsFit, Read};

// A call of a list, whose object and order are parts of the list.
#[derive(Clone, Copy)]
pub enum Call<'a> {
    Fit { object: &'a [u8], order: &'a [u8] },
    TakeBack,
}

// The numbers of the kinds of calls.
// The bytes of a list have these numbers.
const FIT: u32 = 1;

const TAKE_BACK: u32 = 2;

// Where the first call starts: after the count.
pub const FIRST_AT: usize = 4;

// The bytes that stand at a place after their length, and where they end, or nothing where the list ends before them.
fn counted_at(calls: &[u8], at: usize) -> Option<(&[u8], usize)>
    requires { at ≤ length calls.now }
    ensures { MatchOption result (length calls.now < at + 4 + le_at 4 calls.now at)
        (λ r. (r.0.now ≡ part calls.now (at + 4) (le_at 4 calls.now at)) × (r.1 ≡ at + 4 + le_at 4 calls.now at) × (r.1 ≤ length calls.now)) }
{
    if calls.len() - at < 4 {
        return None;
    }
    let from = at + 4;
    let size = numbers_bytes::read::<u32>(calls, at) as usize;
    if calls.len() - from < size {
        return None;
    }
    let end = from + size;
    Some((&calls[from..end], end))
}

// The fit at a place, and where it ends, or nothing where it does not lie inside the bytes. Its object and its order each follow their
// length.
fn fit_at(calls: &[u8], at: usize) -> Option<(Call<'_>, usize)>
    requires { IsFit calls.now at }
    ensures { MatchOption result (is_call calls.now at ≡ false) (λ r. Read calls.now at r.0 r.1) }
{
    let (object, next) = counted_at(calls, at + 4)?;
    let (order, end) = counted_at(calls, next)?;
    Some((Call::Fit { object, order }, end))
}

// The call at a place, and where it ends, or nothing where no call stands there, wholly inside the bytes.
pub fn call_at(calls: &[u8], at: usize) -> Option<(Call<'_>, usize)>
    requires { at ≤ length calls.now }
    ensures { MatchOption result (is_call calls.now at ≡ false) (λ r. Read calls.now at r.0 r.1) }
{
    if calls.len() - at < 4 {
        return None;
    }
    let kind = numbers_bytes::read::<u32>(calls, at);
    match kind {
        FIT => fit_at(calls, at),
        TAKE_BACK => Some((Call::TakeBack, at + 4)),
        _ => None,
    }
}

// How many calls the bytes list, or nothing if they are no list. Every call is checked, and no byte may be left
// over.
pub fn read_list(calls: &[u8]) -> Option<usize>
    ensures { result ≡ cond (is_list calls.now) (Some (call_count calls.now)) None }
{
    if calls.len() < FIRST_AT {
        return None;
    }
    let n = numbers_bytes::read::<u32>(calls, 0) as usize;
    let mut at = FIRST_AT;
    for _ in 0..n {
        let (_, end) = call_at(calls, at)?;
        at = end;
    }
    if at != calls.len() {
        return None;
    }
    Some(n)
}
