// What a read gives.
ghost use Rattle.std.specs.Prelude.{◌≡◌};
ghost use Rattle.csr.specs.Show.{register_read};

use registers::{Registers, masks, pending_interrupts};

// The value of the register with this number, and 0 where there is none.
#[tactic(auto, unfolding(crate::specs::Show::register_read))]
pub fn read(r: Registers, number: u64) -> u64
    ensures { result ≡ register_read r number }
{
    match number {
        0x100 => (r.mstatus & masks::SSTATUS) | masks::UXL,
        0x104 => r.interrupts.mie & r.interrupts.mideleg,
        0x105 => r.supervisor.tvec,
        0x106 => r.supervisor.counteren,
        0x140 => r.supervisor.scratch,
        0x141 => r.supervisor.epc,
        0x142 => r.supervisor.cause,
        0x143 => r.supervisor.tval,
        0x144 => pending_interrupts(r) & r.interrupts.mideleg,
        0x300 => r.mstatus,
        0x301 => 0x8000000000141101,
        0x302 => r.medeleg,
        0x303 => r.interrupts.mideleg,
        0x304 => r.interrupts.mie,
        0x305 => r.machine.tvec,
        0x306 => r.machine.counteren,
        0x320 => r.counters.mcountinhibit,
        0x340 => r.machine.scratch,
        0x341 => r.machine.epc,
        0x342 => r.machine.cause,
        0x343 => r.machine.tval,
        0x344 => pending_interrupts(r),
        0xB00 => r.counters.mcycle,
        0xB02 => r.counters.minstret,
        0xC00 => r.counters.mcycle,
        0xC02 => r.counters.minstret,
        _ => 0,
    }
}
