// A hart: the state and the map of its protection registers go in, and both come back with the answer.
#![tactic(auto)]

use map::Map;
use state::State;
use steps::Answer;

mod query;
mod saved;
mod stepping;

pub use saved::convert;
pub use stepping::map_for;

// The hart struct, on which the steps are methods. Its state may be one that no hart can hold, and is then refused.
#[derive(Clone, Copy)]
pub struct Hart {
    pub state: State,
}

// What a step hands back.
#[derive(Clone, Copy)]
pub struct Stepped {
    pub hart: Hart,
    pub map: Map,
    pub answer: Answer,
}

// A hart with a map.
#[derive(Clone, Copy)]
pub struct Mapped {
    pub hart: Hart,
    pub map: Map,
}
