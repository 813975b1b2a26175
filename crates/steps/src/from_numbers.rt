// Steps from numbers.
ghost use Rattle.std.specs.Prelude.{◌≡◌};
ghost use Rattle.steps.specs.Decode.{decoded, names_access, name_steps};

use crate::{Event, Operation, Step};
use pmp::Access;

// The number of a step and its two arguments, as a record of a trace has them.
#[derive(Clone, Copy, Debug, PartialEq, Eq)]
pub struct Numbers {
    pub step: u64,
    pub a: u64,
    pub b: u64,
}

// The step that a number and its two arguments name, if they name one.
#[tactic(auto, unfolding(crate::specs::Decode::decoded))]
pub fn decode(numbers: Numbers) -> Option<Step>
    ensures { result ≡ decoded numbers.step numbers.a numbers.b }
{
    let Numbers { step, a, b } = numbers;
    match step {
        0 => Some(Step::Reset),
        1 => Some(Step::Csr(Operation::Write, a, b)),
        2 => Some(Step::Csr(Operation::Set, a, b)),
        3 => Some(Step::Csr(Operation::Clear, a, b)),
        4 => Some(Step::Csr(Operation::Read, a, b)),
        5 => Some(Step::Event(Event::Raise(a, b))),
        6 => Some(Step::Event(Event::Lines(a))),
        7 => Some(Step::Event(Event::TakeInterrupt)),
        8 => Some(Step::Event(Event::Mret)),
        9 => Some(Step::Event(Event::Sret)),
        10 => Some(Step::Event(Event::Wfi)),
        11 => Some(Step::Event(Event::Ecall)),
        12 => Some(Step::Event(Event::Ebreak)),
        13 => Some(Step::Event(Event::Advance(a))),
        14 => Some(Step::Access(Access::Fetch, a, b)),
        15 => Some(Step::Access(Access::Load, a, b)),
        16 => Some(Step::Access(Access::Store, a, b)),
        17 => Some(Step::Event(Event::Elapsed(a, b))),
        _ => None,
    }
}

// Whether a number names an access: only of one does an entry decide.
pub fn names_access(number: u64) -> bool
    ensures { result ≡ names_access number }
{
    matches!(number, 14..=16)
}

// Whether there are three words for each step, and each number names one. The loop ends at the first that does not, which also keeps the compiler from
// unrolling it: `tegrwyllt_step` asks of one step.
#[tactic(auto, using(crate::proofs::NumberLaws::above_17, crate::proofs::NumberLaws::rest_named, crate::proofs::NumberLaws::few_named))]
pub fn name_steps(steps: &[u64]) -> bool
    ensures { result ≡ name_steps steps.now }
{
    let mut rest = steps;
    while let [number, _, _, behind @ ..] = rest {
        if 17 < *number {
            return false;
        }
        rest = behind;
    }
    rest.is_empty()
}
