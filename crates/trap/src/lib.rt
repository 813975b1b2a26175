// Traps, returns and time: what they do to the registers of a hart.
#![tactic(auto)]

ghost use Rattle.std.specs.Prelude.{◌≡◌};
ghost use Rattle.trap.specs.Refusal.{refused_step};

use pmp::Refusal;
use registers::Registers;
use steps::Answer;

pub mod enter;
pub mod interrupt;
pub mod returns;
pub mod time;

// The registers after a step that concerns them alone, and its answer.
#[derive(Clone, Copy)]
pub struct Outcome {
    pub registers: Registers,
    pub answer: Answer,
}

fn refuse(r: Registers, refusal: Refusal) -> Outcome
    ensures { result ≡ refused_step r refusal }
{
    Outcome {
        registers: r,
        answer: Answer::Refused(refusal),
    }
}
