// The effective mode of an access.
ghost use Rattle.std.specs.Prelude.{◌≡◌};
ghost use Rattle.registers.specs.Effective.{data_mode, effective_mode};

use crate::Registers;
use crate::fields::MPRV;
use crate::status::previous_mode;
use pmp::{Access, Mode, mode_of};
use steps::Level;

// The number of the mode that a load or a store uses.
fn data_mode(r: Registers) -> u64
    ensures { result ≡ data_mode r }
{
    if r.mstatus / MPRV % 2 == 1 {
        previous_mode(Level::Machine, r.mstatus)
    } else {
        r.mode
    }
}

pub fn effective_mode(r: Registers, access: Access) -> Mode
    ensures { result ≡ effective_mode r access }
{
    match access {
        Access::Fetch => mode_of(r.mode),
        Access::Load | Access::Store => mode_of(data_mode(r)),
    }
}
