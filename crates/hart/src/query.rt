// The access query.
ghost use Rattle.std.specs.Prelude.{◌≡◌};
ghost use Rattle.steps.specs.Number.{decision_numbers};
ghost use Rattle.hart.specs.Queries.{query_answer, query_numbers};

use crate::Hart;
use map::Map;
use pmp::{Access, Decision, Mode, Refusal};

impl Hart {
    // What a map says of an access: refusals 3, 1 and 7, or the lowest owner of its bytes decides.
    pub fn query(self, map: Map, mode: Mode, access: Access, address: u64, size: u64) -> Decision
        ensures value { result ≡ query_answer self map mode access address size }
        ensures result_value { decision_numbers result ≡ query_numbers self map mode access address size }
    {
        if self.can_hold() {
            let state = self.state;
            let pmp = state.pmp;
            let cfgs = pmp.cfgs;
            map::query(cfgs, map, mode, access, address, size)
        } else {
            Decision::Refused(Refusal::State)
        }
    }
}
