// The eighteen steps.
ghost use Rattle.std.specs.Prelude.{◌≡◌};
ghost use Rattle.steps.specs.Number.{answer_numbers};
ghost use Rattle.paging.specs.Memory.{memory_of};
ghost use Rattle.state.specs.Hold.{can_hold};
ghost use Rattle.hart.specs.Steps.{map_for, reset_mapped, stepped, step_numbers};

use crate::{Hart, Mapped, Stepped};
use map::Map;
use paging::Memory;
use protection::Pmp;
use state::State;
use steps::Step;

// The map of protection registers.
pub fn map_for(pmp: Pmp) -> Map
    ensures { result ≡ map_for pmp }
{
    let cfgs = pmp.cfgs;
    let addrs = pmp.addrs;
    map::compile(pmp.grain, cfgs, addrs)
}

impl Hart {
    // Whether a hart can hold this state.
    pub fn can_hold(self) -> bool
        ensures { result ≡ can_hold self.state }
    {
        let state = self.state;
        state::can_hold(state)
    }

    // Makes a hart with a grain: the reset state with its map. A grain above 10 counts as 0.
    pub fn reset(grain: u64) -> Mapped
        ensures { result ≡ reset_mapped grain }
    {
        let state = state::reset(grain);
        let pmp = state.pmp;
        let map = map_for(pmp);
        let hart = Hart { state };
        Mapped { hart, map }
    }

    // One step: what 01's "Steps" says of it, with page tables in the memory that is lent. A refusal hands back hart and map as they were.
    pub fn step(self, map: Map, memory: Memory<'_>, step: Step) -> Stepped
        ensures value { result ≡ stepped self map (memory_of memory.entry) step }
        ensures answer_value { answer_numbers result.answer ≡ step_numbers self map (memory_of memory.entry) step }
    {
        let state = self.state;
        let mut words = <[u64; 43]>::from(state);
        let held = state::words_can_hold(&words);
        let taken = engine::step(&mut words, memory, held, step);
        let answer = taken.answer;
        let after = State::from(words);
        let hart = Hart { state: after };
        if !taken.told.remap {
            return Stepped { hart, map, answer };
        }
        let changed = after.pmp;
        let fresh = map_for(changed);
        Stepped {
            hart,
            map: fresh,
            answer,
        }
    }
}
