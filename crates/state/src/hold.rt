// What a hart can hold, and what reset gives.
ghost use Rattle.std.specs.Prelude.{◌≡◌};
ghost use Rattle.state.specs.Hold.{can_hold, reset_state};
ghost use Rattle.state.specs.Slices.{loaded};

use crate::words::registers_at;
use crate::{State, places};

// Whether a hart can hold the state in the words, judged where they lie. A slice of another length reads as the reset state, which a hart can hold.
pub fn words_can_hold(words: &[u64]) -> bool
    ensures { result ≡ can_hold (loaded words.now) }
{
    let Some(words) = words.as_array::<43>() else {
        return true;
    };
    let grain = words[places::GRAIN];
    let registers = registers::registers_can_hold(registers_at(words));
    let configs = protection::configs_can_hold(
        grain,
        words[places::PMPCFG0],
        words[places::PMPCFG2],
    );
    let addresses = protection::addresses_can_hold(&words[places::PMPADDR0..places::SATP]);
    let satp = paging::satp_can_hold(words[places::SATP]);
    registers & ((pmp::grain_can_hold(grain) & (configs & addresses)) & satp)
}

// Whether a hart can hold this state.
pub fn can_hold(state: State) -> bool
    ensures { result ≡ can_hold state }
{
    let words = <[u64; 43]>::from(state);
    words_can_hold(&words)
}

// The state of a hart that is made, or reset, with a grain.
pub fn reset(grain: u64) -> State
    ensures { result ≡ reset_state grain }
{
    State {
        registers: registers::reset_registers(),
        pmp: protection::reset(grain),
        satp: 0,
    }
}
