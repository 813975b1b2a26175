// The trap registers of a level.
ghost use Rattle.std.specs.Prelude.{◌≡◌};
ghost use Rattle.registers.specs.Update.{level_of, with_level};

use crate::{LevelRegisters, Registers};
use steps::Level;

pub fn level_registers(level: Level, r: Registers) -> LevelRegisters
    ensures { result ≡ level_of level r }
{
    match level {
        Level::Supervisor => r.supervisor,
        Level::Machine => r.machine,
    }
}

pub fn with_level_registers(level: Level, r: Registers, l: LevelRegisters) -> Registers
    ensures { result ≡ with_level level r l }
{
    match level {
        Level::Supervisor => Registers { supervisor: l, ..r },
        Level::Machine => Registers { machine: l, ..r },
    }
}
