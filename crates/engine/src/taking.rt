// A step of any family.
ghost use Rattle.std.specs.Prelude.{◌≡◌};
ghost use Rattle.paging.specs.Memory.{memory_of};
ghost use Rattle.state.specs.Words.{state_of};
ghost use Rattle.engine.specs.Effects.{is_reset, effect, ruled_by};
ghost use Rattle.engine.specs.Taking.{effect_taken, step_taken};

use crate::access::step_access;
use crate::csrs::step_csr;
use crate::events::step_event;
use crate::{Taken, Told, apart};
use paging::Memory;
use pmp::Refusal;
use state::places;
use steps::{Answer, Step};

// Whether the step is step 0, which is never refused.
fn is_reset(step: Step) -> bool
    ensures { result ≡ is_reset step }
{
    matches!(step, Step::Reset)
}

// What a step does where refusal 3 does not apply. No map is read.
fn take_effect(words: &mut [u64; 43], memory: Memory<'_>, step: Step) -> Taken
    ensures value { result ≡ effect_taken (state_of words.old) (memory_of memory.entry) step }
    ensures words_after { state_of words.new ≡ (effect (state_of words.old) (memory_of memory.entry) step).state }
{
    match step {
        Step::Reset => {
            let grain = words[places::GRAIN];
            state::store(state::reset(grain), words);
            Taken {
                answer: Answer::Done,
                told: Told {
                    held: true,
                    remap: true,
                },
            }
        }
        Step::Csr(operation, number, operand) => step_csr(words, operation, number, operand),
        Step::Access(access, address, size) => {
            apart(step_access(words, memory, access, address, size))
        }
        Step::Event(event) => apart(step_event(words, event)),
    }
}

// A step on the words of a hart, which their state determines. Refusal 3 goes by `held`: whoever calls says whether a hart can hold that state, and where that is
// true the step says it truly of the state that it leaves.
pub fn step(words: &mut [u64; 43], memory: Memory<'_>, held: bool, step: Step) -> Taken
    ensures value { result ≡ step_taken held (state_of words.old) (memory_of memory.entry) step }
    ensures words_after { state_of words.new ≡ (ruled_by held (state_of words.old) (memory_of memory.entry) step).state }
{
    if is_reset(step) | held {
        return take_effect(words, memory, step);
    }
    Taken {
        answer: Answer::Refused(Refusal::State),
        told: Told {
            held: false,
            remap: false,
        },
    }
}
