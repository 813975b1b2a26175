// The steps of a hart on its 43 words, changed in place. Whether a hart can hold the state is judged once, and carried from step to step.
#![tactic(auto)]

ghost use Rattle.std.specs.Prelude.{◌≡◌};
ghost use Rattle.engine.specs.Taking.{apart};

use steps::Answer;

mod access;
mod csrs;
mod events;
mod runs;
mod taking;

pub use runs::{run, step_into, step_named};
pub use taking::step;

// What is told of a step besides its answer and the words that it leaves: whether a hart can hold what is left, and whether the map has to be compiled
// anew.
#[derive(Clone, Copy)]
pub struct Told {
    pub held: bool,
    pub remap: bool,
}

// The answer of a step, and what is told of it.
#[derive(Clone, Copy)]
pub struct Taken {
    pub answer: Answer,
    pub told: Told,
}

// A step that leaves the protection registers alone.
fn apart(answer: Answer) -> Taken
    ensures { result ≡ apart answer }
{
    Taken {
        answer,
        told: Told {
            held: true,
            remap: false,
        },
    }
}
