// Entry to a level, and the exceptions that the steps raise.
ghost use Rattle.std.specs.Prelude.{◌≡◌, ◌<◌, if◌then◌else◌};
ghost use Rattle.steps.specs.declared.Level.TheVariants.{Supervisor, Machine};
ghost use Rattle.steps.specs.Number.{cause_number, interrupt_number};
ghost use Rattle.trap.specs.Enter.{destination, handler, entered_status, entered, raised_by, raised, raise_step, illegal_instruction, environment_call, breakpoint};

use crate::{Outcome, refuse};
use bits::has_bit;
use pmp::{NONE, Refusal};
use registers::fields::{MIE, MPIE, MPP, MPP_ONE, SIE, SPIE, SPP};
use registers::{Registers, level_registers, with_level_registers};
use steps::{Answer, Level, Trap};

// The level of a delegation bit, which is no level's number.
fn chosen_level(supervisor: bool) -> Level
    ensures { result ≡ (if supervisor then Supervisor else Machine) }
{
    if supervisor {
        Level::Supervisor
    } else {
        Level::Machine
    }
}

// The level that a trap is taken to.
pub(crate) fn trap_level(r: Registers, trap: Trap) -> Level
    ensures { result ≡ destination r trap }
{
    match trap {
        Trap::Exception(cause) => chosen_level((r.mode != 3) & has_bit(r.medeleg, cause)),
        Trap::Interrupt(number) => chosen_level(has_bit(r.interrupts.mideleg, number)),
    }
}

// What is recorded as the cause. The interrupts of a hart are places of a word, so that the sum does not wrap, as that of `u64::from` may.
fn recorded_cause(trap: Trap) -> u64
    requires { interrupt_number trap < 64 }
    ensures { result ≡ cause_number trap }
{
    match trap {
        Trap::Exception(cause) => cause,
        Trap::Interrupt(number) => 0x8000000000000000 + number,
    }
}

// The address of the handler. An exception never vectors.
fn handler_address(tvec: u64, trap: Trap) -> u64
    ensures { result ≡ handler tvec trap }
{
    let base = tvec - tvec % 4;
    match trap {
        Trap::Exception(_) => base,
        Trap::Interrupt(number) => {
            if tvec % 4 == 1 {
                base.wrapping_add(number.wrapping_mul(4))
            } else {
                base
            }
        }
    }
}

// mstatus after entry to a level from a mode.
#[tactic(auto, unfolding(crate::specs::Enter::entered_status))]
fn entered_status(level: Level, mode: u64, mstatus: u64) -> u64
    ensures { result ≡ entered_status level mode mstatus }
{
    match level {
        Level::Supervisor => {
            (mstatus & !(SIE | SPIE | SPP)) | ((mstatus & SIE) * 16 | mode % 2 * SPP)
        }
        Level::Machine => {
            (mstatus & !(MIE | MPIE | MPP)) | ((mstatus & MIE) * 16 | mode % 4 * MPP_ONE)
        }
    }
}

#[tactic(auto, unfolding(crate::specs::Enter::entered))]
pub(crate) fn enter_level(level: Level, trap: Trap, tval: u64, r: Registers) -> Registers
    requires { interrupt_number trap < 64 }
    ensures { result ≡ entered level trap tval r }
{
    let mut l = level_registers(level, r);
    let address = handler_address(l.tvec, trap);
    l.epc = r.pc;
    l.cause = recorded_cause(trap);
    l.tval = tval;
    let mut e = r;
    e.mstatus = entered_status(level, r.mode, r.mstatus);
    e.mode = u64::from(level);
    e.pc = address;
    with_level_registers(level, e, l)
}

// Raises an exception of any cause. `entry` is what decided on the access from which it comes.
#[tactic(auto, unfolding(crate::specs::Enter::raised_by))]
pub fn raise_by(r: Registers, cause: u64, tval: u64, entry: u8) -> Outcome
    ensures { result ≡ raised_by r cause tval entry }
{
    let trap = Trap::Exception(cause);
    let level = trap_level(r, trap);
    Outcome {
        registers: enter_level(level, trap, tval, r),
        answer: Answer::Trapped(trap, level, entry),
    }
}

// Raises one that comes from no access.
pub(crate) fn raise(r: Registers, cause: u64, tval: u64) -> Outcome
    ensures { result ≡ raised r cause tval }
{
    raise_by(r, cause, tval, NONE)
}

// Raises an exception of a cause up to 7; another is refused.
#[tactic(auto, unfolding(crate::specs::Enter::raise_step))]
pub fn raise_step(r: Registers, cause: u64, tval: u64) -> Outcome
    ensures { result ≡ raise_step r cause tval }
{
    if cause <= 7 {
        raise(r, cause, tval)
    } else {
        refuse(r, Refusal::Argument)
    }
}

pub fn illegal_instruction(r: Registers) -> Outcome
    ensures { result ≡ illegal_instruction r }
{
    raise(r, 2, 0)
}

// ECALL.
pub fn environment_call(r: Registers) -> Outcome
    ensures { result ≡ environment_call r }
{
    raise(r, 8 + r.mode % 4, 0)
}

// EBREAK.
pub fn breakpoint(r: Registers) -> Outcome
    ensures { result ≡ breakpoint r }
{
    raise(r, 3, 0)
}
