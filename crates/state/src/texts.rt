// Which states the first form of a saved text can hold.
ghost use Rattle.std.specs.Prelude.{◌≡◌};
ghost use Rattle.state.specs.Texts.{first_form_holds};

use crate::State;
use registers::fields::SUM;

// The exceptions that a text of that form can delegate.
const MEDELEG: u64 = 0x3FF;

// Whether a text of the first form can hold the state.
#[tactic(auto, unfolding(crate::specs::Texts::first_form_holds))]
pub fn first_form_holds(state: State) -> bool
    ensures { result ≡ first_form_holds state }
{
    let registers = state.registers;
    let pmp = state.pmp;
    ((state.satp == 0) & (pmp.grain == 0))
        & (!(registers.mstatus / SUM % 2 == 1) & (registers.medeleg & MEDELEG == registers.medeleg))
}
