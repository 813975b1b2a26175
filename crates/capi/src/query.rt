// The access query on words.
ghost use Rattle.std.specs.Prelude.{◌≡◌, cond, leb};
ghost use Rattle.steps.specs.Number.{decision_numbers};
ghost use Rattle.hart.specs.Queries.{query_answer};
ghost use Rattle.map.specs.MapWords.{map_of_words};
ghost use Rattle.capi.specs.Calls.{hart_of, access_of};

use pmp::{Access, Decision, Mode, Refusal};
use state::places;

// The kind of access of one of C's numbers, which are C's alone: a conversion of `Access` by them would stand in `pmp`.
pub(crate) fn access_of(kind: u64) -> Option<Access>
    ensures { result ≡ cond (leb kind 2) (Some (access_of kind)) None }
{
    match kind {
        0 => Some(Access::Fetch),
        1 => Some(Access::Load),
        2 => Some(Access::Store),
        _ => None,
    }
}

// The words are judged and read as they lie: a state and a map by value would be copied first.
pub(crate) fn ask(
    hart: &[u64; 43],
    map: &[u64],
    mode: Mode,
    access: Access,
    address: u64,
    size: u64,
) -> Decision
    ensures { result ≡ query_answer (hart_of hart.now) (map_of_words map.now) mode access address size }
{
    if !state::words_can_hold(hart) {
        return Decision::Refused(Refusal::State);
    }
    let cfgs = protection::configs_of(hart[places::PMPCFG0], hart[places::PMPCFG2]);
    map::query_words(cfgs, map, mode, access, address, size)
}

// No `From`, as it would have to stand beside the type, below the numbers of answers that it is promised by.
pub(crate) fn decision_words(decision: Decision) -> [u64; 4]
    ensures { result ≡ decision_numbers decision }
{
    match decision {
        Decision::Granted(entry) => [3, 0, 0, entry as u64],
        Decision::Fault(cause, entry) => [6, cause, 0, entry as u64],
        Decision::Refused(refusal) => steps::refused_words(u64::from(refusal)),
    }
}
