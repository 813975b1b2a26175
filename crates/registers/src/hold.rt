// What a hart can hold. These tests run at every step: they read each register once and do not branch.
ghost use Rattle.std.specs.Prelude.{◌≡◌};
ghost use Rattle.registers.specs.Hold.{interrupts_holdable, level_holdable, registers_holdable, reset_registers};

use crate::{Counters, Interrupts, LevelRegisters, Registers, fields, masks};

fn interrupts_can_hold(i: Interrupts) -> bool
    ensures { result ≡ interrupts_holdable i }
{
    let mideleg = i.mideleg & masks::MIDELEG == i.mideleg;
    let mie = i.mie & masks::MIE == i.mie;
    let mip = i.mip & masks::MIP == i.mip;
    let lines = i.lines & masks::LINES == i.lines;
    mideleg & (mie & (mip & lines))
}

fn level_can_hold(l: LevelRegisters) -> bool
    ensures { result ≡ level_holdable l }
{
    let tvec = l.tvec % 4 < 2;
    let counteren = l.counteren & masks::COUNTERS == l.counteren;
    let epc = l.epc % 4 == 0;
    let cause = l.cause & masks::CAUSE == l.cause;
    tvec & (counteren & (epc & cause))
}

// All registers but those of protection.
#[tactic(auto, unfolding(crate::specs::Hold::registers_holdable))]
pub fn registers_can_hold(r: Registers) -> bool
    ensures { result ≡ registers_holdable r }
{
    let mode = (r.mode == 0) | ((r.mode == 1) | (r.mode == 3));
    let pc = r.pc % 4 == 0;
    let status = (((r.mstatus & masks::MSTATUS) | masks::SXL_UXL) == r.mstatus)
        & (r.mstatus & fields::MPP != fields::MPP_TWO);
    let medeleg = r.medeleg & masks::MEDELEG == r.medeleg;
    let interrupts = interrupts_can_hold(r.interrupts);
    let inhibit = r.counters.mcountinhibit & masks::COUNTERS == r.counters.mcountinhibit;
    let machine = level_can_hold(r.machine);
    let supervisor = level_can_hold(r.supervisor);
    mode & (pc & (status & (medeleg & (interrupts & (inhibit & (machine & supervisor))))))
}

pub fn reset_registers() -> Registers
    ensures { result ≡ reset_registers }
{
    let zero = LevelRegisters {
        tvec: 0,
        counteren: 0,
        scratch: 0,
        epc: 0,
        cause: 0,
        tval: 0,
    };
    Registers {
        mode: 3,
        pc: 0x1000,
        mstatus: masks::SXL_UXL,
        medeleg: 0,
        interrupts: Interrupts {
            mideleg: 0,
            mie: 0,
            mip: 0,
            lines: 0,
        },
        counters: Counters {
            mcountinhibit: 0,
            mcycle: 0,
            minstret: 0,
        },
        machine: zero,
        supervisor: zero,
    }
}
