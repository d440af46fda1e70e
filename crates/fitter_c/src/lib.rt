// The static library for callers in other languages: the three calls of `fitter`, under their C names.
#![tactic(auto)]

ghost use Rattle.std.specs.Prelude.{◌≡◌};
ghost use Rattle.journal_history.specs.Calls.{files};
ghost use Rattle.journal_history.specs.Histories.{Start};
ghost use Rattle.calls_replay.specs.Replays.{replay as «the-replay»};
ghost use Rattle.calls_demands.specs.Ours.{our_install, our_rollback};
ghost use Rattle.calls_demands.specs.Codes.{Returned};
ghost use Rattle.fitter.specs.Replayed.{Demand3Of};

// `install` for callers in other languages. The four buffers must not overlap.
#[unsafe(no_mangle)]
pub extern "C" fn aktinoph_fit(
    object: &[u8],
    order: &[u8],
    image: &mut [u8],
    ledger: &mut [u8],
) -> u64
    ensures { Returned result (files image.new ledger.new)
        (our_install object.now order.now (files image.old ledger.old)) }
{
    fitter::aktinoph_fit(object, order, image, ledger)
}

// `rollback` for callers in other languages. The two buffers must not overlap.
#[unsafe(no_mangle)]
pub extern "C" fn aktinoph_take_back(image: &mut [u8], ledger: &mut [u8]) -> u64
    ensures { Returned result (files image.new ledger.new) (our_rollback (files image.old ledger.old)) }
{
    fitter::aktinoph_take_back(image, ledger)
}

// Makes a list of calls one after the other, for callers in other languages. It returns 1 if the list was run; the
// first places then hold the answers. It returns 0, and changes nothing, if the bytes are no list or there are fewer
// places than calls. The buffers must not overlap.
#[unsafe(no_mangle)]
pub extern "C" fn aktinoph_replay(
    calls: &[u8],
    image: &mut [u8],
    ledger: &mut [u8],
    answers: &mut [u64],
) -> u64
    ensures ledger_after { record { ran = result; answers = answers.new; after = files image.new ledger.new }
        ≡ «the-replay» our_install our_rollback calls.now answers.old (files image.old ledger.old) }
    ensures demand3of { result ≡ 1 → Start (files image.old ledger.old)
        → Demand3Of calls.now (files image.old ledger.old) answers.new (files image.new ledger.new) }
{
    fitter::aktinoph_replay(calls, image, ledger, answers)
}
