// The lines, and taking an interrupt.
ghost use Rattle.std.specs.Prelude.{◌≡◌, ℕ, ◌<◌};
ghost use Rattle.bits.specs.Mask.{test_bit};
ghost use Rattle.trap.specs.Interrupt.{lines_step, admits, takeable_to, first_of, priority, machine_bound_first, interrupt_taken};

use crate::enter::{enter_level, trap_level};
use crate::{Outcome, refuse};
use bits::has_bit;
use pmp::Refusal;
use registers::fields::{MIE, SIE};
use registers::masks::LINES;
use registers::{Registers, pending_interrupts};
use steps::{Answer, Level, Trap};

// Replaces the lines; bits that are no lines are refused.
#[tactic(auto, unfolding(crate::specs::Interrupt::lines_step))]
pub fn lines_step(r: Registers, lines: u64) -> Outcome
    ensures { result ≡ lines_step r lines }
{
    if lines & LINES == lines {
        let mut e = r;
        e.interrupts.lines = lines;
        Outcome {
            registers: e,
            answer: Answer::Done,
        }
    } else {
        refuse(r, Refusal::Argument)
    }
}

// Whether mode and mstatus admit an interrupt that goes to the level.
fn admits(level: Level, r: Registers) -> bool
    ensures { result ≡ admits level r }
{
    match level {
        Level::Machine => (r.mode < 3) | (r.mstatus / MIE % 2 == 1),
        Level::Supervisor => (r.mode == 0) | ((r.mode == 1) & (r.mstatus / SIE % 2 == 1)),
    }
}

// The takeable interrupts bound for the level, a bit for each.
fn takeable_set(level: Level, r: Registers) -> u64
    ensures { (i : ℕ) → i < 64 → test_bit result i ≡ takeable_to level r i }
{
    if !admits(level, r) {
        return 0;
    }
    let pending_enabled = pending_interrupts(r) & r.interrupts.mie;
    match level {
        Level::Machine => pending_enabled & !r.interrupts.mideleg,
        Level::Supervisor => pending_enabled & r.interrupts.mideleg,
    }
}

// The first interrupt of the set in the order of priority.
fn first_by_priority(set: u64) -> Option<u64>
    ensures { result ≡ first_of (test_bit set) priority }
{
    let order: [u64; 6] = [11, 3, 7, 9, 1, 5];
    for number in order {
        if has_bit(set, number) {
            return Some(number);
        }
    }
    None
}

// Whatever the order says, an interrupt bound for M goes before any bound for S.
fn machine_bound_first(r: Registers) -> Option<u64>
    ensures { result ≡ machine_bound_first r }
{
    let machine = takeable_set(Level::Machine, r);
    let supervisor = takeable_set(Level::Supervisor, r);
    let first = first_by_priority(machine);
    first.or_else(|| first_by_priority(supervisor))
}

#[tactic(auto, unfolding(crate::specs::Interrupt::interrupt_taken))]
pub fn take_interrupt(r: Registers) -> Outcome
    ensures { result ≡ interrupt_taken r }
{
    match machine_bound_first(r) {
        Some(number) => {
            let trap = Trap::Interrupt(number);
            Outcome {
                registers: enter_level(trap_level(r, trap), trap, 0, r),
                answer: Answer::DoneFlag(true),
            }
        }
        None => Outcome {
            registers: r,
            answer: Answer::DoneFlag(false),
        },
    }
}
