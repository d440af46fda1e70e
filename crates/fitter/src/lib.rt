// The library: the calls for callers in other languages. `fitter_c` exports them under the same names.
#![tactic(auto)]

ghost use Rattle.std.specs.Prelude.{◌≡◌, true, ◌≤◌, length};
ghost use Rattle.std.proofs.lemmas.List.Edits.{sets};
ghost use Rattle.journal_history.specs.Calls.{files, calling};
ghost use Rattle.journal_history.specs.Histories.{Start};
ghost use Rattle.calls_replay.specs.Lists.{call_count, is_list};
ghost use Rattle.calls_replay.specs.Replays.{replay as «the-replay»};
ghost use Rattle.calls_replay.specs.Requires.{the_call, left_by, codes_of};
ghost use Rattle.calls_demands.specs.Ours.{our_install, our_rollback};
ghost use Rattle.calls_demands.specs.Codes.{Returned};
ghost use Rattle.fitter.specs.Replayed.{Demand3Of};

use calls_install::{install, rollback};
use calls_judge::code_of;
use calls_replay::{Call, FIRST_AT};

// `install` for callers in other languages. The four buffers must not overlap.
pub fn aktinoph_fit(object: &[u8], order: &[u8], image: &mut [u8], ledger: &mut [u8]) -> u64
    ensures { Returned result (files image.new ledger.new)
        (our_install object.now order.now (files image.old ledger.old)) }
{
    code_of(install(object, order, image, ledger))
}

// `rollback` for callers in other languages. The two buffers must not overlap.
pub fn aktinoph_take_back(image: &mut [u8], ledger: &mut [u8]) -> u64
    ensures { Returned result (files image.new ledger.new) (our_rollback (files image.old ledger.old)) }
{
    code_of(rollback(image, ledger))
}

// Makes a call of a list.
fn make_call(call: Call<'_>, image: &mut [u8], ledger: &mut [u8]) -> u64
    ensures { Returned result (files image.new ledger.new)
        (calling our_install our_rollback (files image.old ledger.old) (the_call call.entry)) }
{
    match call {
        Call::Fit { object, order } => aktinoph_fit(object, order, image, ledger),
        Call::TakeBack => aktinoph_take_back(image, ledger),
    }
}

// Makes the n calls of a list one after the other, and puts their answers into the first places.
// Image, ledger and answers are three buffers of the caller's.
fn make_calls(calls: &[u8], n: usize, image: &mut [u8], ledger: &mut [u8], answers: &mut [u64])
    requires { (is_list calls.now ≡ true) × (n ≡ call_count calls.now) × (n ≤ length answers.old) }
    ensures { (files image.new ledger.new
        ≡ left_by our_install our_rollback calls.now (files image.old ledger.old) n)
        × (answers.new ≡ sets answers.old 0 (codes_of our_install our_rollback calls.now (files image.old ledger.old) n)) }
{
    let mut at = FIRST_AT;
    for i in 0..n {
        let (call, end) = calls_replay::call_at(calls, at).unwrap();
        answers[i] = make_call(call, image, ledger);
        at = end;
    }
}

// Runs a list of n calls if there are enough places for their answers. It returns 1 if it ran them, otherwise 0, the
// numbers of the C interface.
fn replay_list(
    calls: &[u8],
    n: usize,
    image: &mut [u8],
    ledger: &mut [u8],
    answers: &mut [u64],
) -> u64
    requires { (is_list calls.now ≡ true) × (n ≡ call_count calls.now) }
    ensures { record { ran = result; answers = answers.new; after = files image.new ledger.new }
        ≡ «the-replay» our_install our_rollback calls.now answers.old (files image.old ledger.old) }
{
    if answers.len() < n {
        return 0;
    }
    make_calls(calls, n, image, ledger, answers);
    1
}

// Makes a list of calls one after the other, for callers in other languages. It returns 1 if the list was run; the
// first places then hold the answers. It returns 0, and changes nothing, if the bytes are no list or there are fewer
// places than calls. The buffers must not overlap.
pub fn aktinoph_replay(
    calls: &[u8],
    image: &mut [u8],
    ledger: &mut [u8],
    answers: &mut [u64],
) -> u64
    ensures ledger_after { record { ran = result; answers = answers.new; after = files image.new ledger.new }
        ≡ «the-replay» our_install our_rollback calls.now answers.old (files image.old ledger.old) }
    ensures demand3of { result ≡ 1 → Start (files image.old ledger.old)
        → Demand3Of calls.now (files image.old ledger.old) answers.new (files image.new ledger.new) }
{
    match calls_replay::read_list(calls) {
        None => 0,
        Some(n) => replay_list(calls, n, image, ledger, answers),
    }
}
