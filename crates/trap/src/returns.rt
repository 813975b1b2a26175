// MRET, SRET and WFI.
ghost use Rattle.std.specs.Prelude.{◌≡◌, ◌+◌, ◌%◌, ◌^◌};
ghost use Rattle.trap.specs.Return.{cleared_mprv, returned_status, returned, may_return, may_wait, waited};

use crate::Outcome;
use crate::enter::illegal_instruction;
use registers::fields::{MIE, MPIE, MPP, MPRV, SIE, SPIE, SPP, TSR, TW};
use registers::{Registers, level_registers, pending_interrupts, previous_mode};
use steps::{Answer, Level};

// MPRV where a return to the mode clears it.
fn cleared_mprv(mode: u64) -> u64
    ensures { result ≡ cleared_mprv mode }
{
    if mode == 3 { 0 } else { MPRV }
}

// mstatus after a return.
#[tactic(auto, unfolding(crate::specs::Return::returned_status))]
fn returned_status(level: Level, mstatus: u64) -> u64
    ensures { result ≡ returned_status level mstatus }
{
    let kept = mstatus & !cleared_mprv(previous_mode(level, mstatus));
    match level {
        Level::Supervisor => (kept & !(SIE | SPP)) | ((mstatus & SPIE) / 16 | SPIE),
        Level::Machine => (kept & !(MIE | MPP)) | ((mstatus & MPIE) / 16 | MPIE),
    }
}

// The registers after a return: MRET for the machine level, SRET for the supervisor level.
#[tactic(auto, unfolding(crate::specs::Return::returned))]
pub fn return_registers(level: Level, r: Registers) -> Registers
    ensures { result ≡ returned level r }
{
    let l = level_registers(level, r);
    let mut e = r;
    e.mode = previous_mode(level, r.mstatus);
    e.pc = l.epc;
    e.mstatus = returned_status(level, r.mstatus);
    e
}

// Whether the mode may return from the level; else it is an illegal instruction.
pub fn may_return(level: Level, r: Registers) -> bool
    ensures { result ≡ may_return level r }
{
    match level {
        Level::Supervisor => (r.mode == 3) | ((r.mode == 1) & (r.mstatus / TSR % 2 != 1)),
        Level::Machine => r.mode == 3,
    }
}

fn may_wait(r: Registers) -> bool
    ensures { result ≡ may_wait r }
{
    (r.mode == 3) | ((r.mode == 1) & (r.mstatus / TW % 2 != 1))
}

// pc after a completed CSR step or WFI.
pub fn next_pc(pc: u64) -> u64
    ensures { result ≡ (pc + 4) % 2 ^ 64 }
{
    pc.wrapping_add(4)
}

// WFI.
#[tactic(auto, unfolding(crate::specs::Return::waited))]
pub fn wait(r: Registers) -> Outcome
    ensures { result ≡ waited r }
{
    if may_wait(r) {
        let mut e = r;
        e.pc = next_pc(r.pc);
        Outcome {
            registers: e,
            answer: Answer::DoneFlag(pending_interrupts(r) & r.interrupts.mie != 0),
        }
    } else {
        illegal_instruction(r)
    }
}
