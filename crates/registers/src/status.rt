// Fields that several registers make up, and fields that both levels have.
ghost use Rattle.std.specs.Prelude.{◌≡◌};
ghost use Rattle.registers.specs.Status.{pending, previous_mode};

use crate::Registers;
use crate::fields::{MPP, MPP_ONE, SPP};
use steps::Level;

// mip as it is read: the software bits or the lines.
pub fn pending_interrupts(r: Registers) -> u64
    ensures { result ≡ pending r }
{
    r.interrupts.mip | r.interrupts.lines
}

// The number in MPP or SPP.
pub fn previous_mode(level: Level, mstatus: u64) -> u64
    ensures { result ≡ previous_mode level mstatus }
{
    match level {
        Level::Supervisor => (mstatus & SPP) / SPP,
        Level::Machine => (mstatus & MPP) / MPP_ONE,
    }
}
