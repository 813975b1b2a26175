// The steps advance and elapsed.
ghost use Rattle.std.specs.Prelude.{◌≡◌};
ghost use Rattle.trap.specs.Time.{advanced, counted, elapsed};

use crate::Outcome;
use crate::enter::raise;
use bits::has_bit;
use registers::Registers;
use steps::Answer;

#[tactic(auto, unfolding(crate::specs::Time::advanced))]
pub fn advance(r: Registers, target: u64) -> Outcome
    ensures { result ≡ advanced r target }
{
    if target % 4 == 0 {
        let mut e = r;
        e.pc = target;
        Outcome {
            registers: e,
            answer: Answer::Done,
        }
    } else {
        raise(r, 0, target)
    }
}

// A counter moved on, wrapping, unless it is inhibited.
fn count(inhibited: bool, counter: u64, more: u64) -> u64
    ensures { result ≡ counted inhibited counter more }
{
    if inhibited {
        counter
    } else {
        counter.wrapping_add(more)
    }
}

#[tactic(auto, unfolding(crate::specs::Time::elapsed))]
pub fn elapse(r: Registers, cycles: u64, retired: u64) -> Outcome
    ensures { result ≡ elapsed r cycles retired }
{
    let mut counters = r.counters;
    let inhibit = counters.mcountinhibit;
    counters.mcycle = count(has_bit(inhibit, 0), counters.mcycle, cycles);
    counters.minstret = count(has_bit(inhibit, 2), counters.minstret, retired);
    let mut e = r;
    e.counters = counters;
    Outcome {
        registers: e,
        answer: Answer::Done,
    }
}
