// A query after a whole run. The contracts name no map: they are demand 3, said of the program. One memory is lent to all steps of a run.
ghost use Rattle.std.specs.Prelude.{◌≡◌};
ghost use Rattle.paging.specs.Memory.{memory_of};
ghost use Rattle.state.specs.Hold.{reset_state};
ghost use Rattle.hart.specs.Runs.{with};
ghost use Rattle.claims.specs.Faithful.{query_after};
ghost use Rattle.claims.specs.AfterRun.{steps_in, rule_after, rule_from_text};

use hart::Hart;
use map::Map;
use paging::Memory;
use pmp::{Access, Decision, Mode};
use state::State;
use text::Form;

// Runs the steps, three numbers each, and asks. The map is compiled where some step asked for it.
fn query_after(
    hart: Hart,
    map: Map,
    memory: Memory<'_>,
    steps: &[u64],
    mode: Mode,
    access: Access,
    address: u64,
    size: u64,
) -> Decision
    ensures { result ≡ query_after (with hart map) (steps_in (memory_of memory.entry) steps.now) mode access address size }
{
    let state = hart.state;
    let mut words = <[u64; 43]>::from(state);
    let mut answers = [0u64; 1];
    let remap = engine::run(&mut words, memory, steps, &mut answers);
    let after = State::from(words);
    let left = Hart { state: after };
    if !remap {
        return left.query(map, mode, access, address, size);
    }
    let changed = after.pmp;
    let fresh = hart::map_for(changed);
    left.query(fresh, mode, access, address, size)
}

// A query after a run from reset, of a hart that is made with a grain.
pub fn query_from_reset(
    grain: u64,
    memory: Memory<'_>,
    steps: &[u64],
    mode: Mode,
    access: Access,
    address: u64,
    size: u64,
) -> Decision
    ensures { result ≡ rule_after (reset_state grain) (steps_in (memory_of memory.entry) steps.now) mode access address size }
{
    let start = Hart::reset(grain);
    let hart = start.hart;
    let map = start.map;
    query_after(hart, map, memory, steps, mode, access, address, size)
}

// A query after a run from a saved text of a form. A refused text answers with its refusal.
pub fn query_from_text(
    form: Form,
    text: &[u8],
    memory: Memory<'_>,
    steps: &[u64],
    mode: Mode,
    access: Access,
    address: u64,
    size: u64,
) -> Decision
    ensures { result ≡ rule_from_text form text.now (steps_in (memory_of memory.entry) steps.now) mode access address size }
{
    let start = Hart::reset(0);
    let blank = start.hart;
    let given = start.map;
    let read = blank.restore(given, form, text);
    match read.answer.refusal() {
        None => query_after(
            read.hart, read.map, memory, steps, mode, access, address, size,
        ),
        Some(refusal) => Decision::Refused(refusal),
    }
}
