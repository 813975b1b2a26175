// What is given out for a record, written as four words or as a line.
ghost use Rattle.std.specs.Prelude.{◌≡◌, ℕ, ◌+◌, ◌≤◌, List, [], ◌∷◌, length};
ghost use Rattle.steps.specs.Decode.{decoded, names_access};
ghost use Rattle.paging.specs.Memory.{memory_of};
ghost use Rattle.state.specs.Words.{state_of};
ghost use Rattle.engine.specs.Taking.{named_taken, named_state};
ghost use Rattle.trace.specs.Buffers.{Put};
ghost use Rattle.trace.specs.Replies.{Reply, Answered, Broken, reply_numbers, reply_line};
ghost use Rattle.trace.specs.Widths.{numbers_fit, line_fits};

use crate::{StepLeft, writer};
use paging::Memory;
use pmp::Refusal;
use steps::Numbers;

// What a buffer of replies is made of: words, four for each reply, or bytes, a line for each. The code over records is made anew for each of them, so a
// program that knows only one has no code of the other.
pub(crate) trait Output {
    // How a reply is written, and the room that it takes at most.
    ghost text: { Reply → List Self };

    ghost width: { ℕ };

    // The answer to the step that numbers name, whatever they name.
    fn put_step(
        words: &mut [u64; 43],
        memory: Memory<'_>,
        held: bool,
        numbers: Numbers,
        out: &mut [Self],
        place: usize,
    ) -> StepLeft
        requires { place + width ≤ length out.old }
        ensures told_value { result.told ≡ (named_taken held (state_of words.old) (memory_of memory.entry) (decoded numbers.step numbers.a numbers.b)).told }
        ensures words_after { state_of words.new ≡ named_state held (state_of words.old) (memory_of memory.entry) (decoded numbers.step numbers.a numbers.b) }
        ensures put { Put out.old place (text (Answered (named_taken held (state_of words.old) (memory_of memory.entry) (decoded numbers.step numbers.a numbers.b)).answer (names_access numbers.step))) out.new result.filled };

    // Refusal 8, with the record's number.
    fn put_broken(number: u64, out: &mut [Self], place: usize) -> usize
        requires { place + width ≤ length out.old }
        ensures { Put out.old place (text (Broken number)) out.new result };

    ghost fits: { (reply : Reply) → length (text reply) ≤ width };
}

impl Output for u64 {
    ghost text = { reply_numbers };

    ghost width = { 4 };

    fn put_step(
        words: &mut [u64; 43],
        memory: Memory<'_>,
        held: bool,
        numbers: Numbers,
        out: &mut [u64],
        place: usize,
    ) -> StepLeft {
        let told = engine::step_into(words, memory, held, numbers, out, place);
        StepLeft {
            told,
            filled: place + 4,
        }
    }

    fn put_broken(number: u64, out: &mut [u64], place: usize) -> usize {
        put_words(5, u64::from(Refusal::Record), number, 0, out, place)
    }

    ghost fits = { numbers_fit };
}

impl Output for u8 {
    ghost text = { reply_line };

    ghost width = { 64 };

    fn put_step(
        words: &mut [u64; 43],
        memory: Memory<'_>,
        held: bool,
        numbers: Numbers,
        out: &mut [u8],
        place: usize,
    ) -> StepLeft {
        let taken = engine::step_named(words, memory, held, numbers);
        let answer = taken.answer;
        let filled = writer::put_answer(steps::names_access(numbers.step), answer, out, place);
        StepLeft {
            told: taken.told,
            filled,
        }
    }

    fn put_broken(number: u64, out: &mut [u8], place: usize) -> usize {
        writer::put_broken(number, out, place)
    }

    ghost fits = { line_fits };
}

// Writes four words from a place on and answers the place behind them.
fn put_words(
    first: u64,
    second: u64,
    third: u64,
    fourth: u64,
    answers: &mut [u64],
    place: usize,
) -> usize
    requires { place + 4 ≤ length answers.old }
    ensures { Put answers.old place (first ∷ second ∷ third ∷ fourth ∷ []) answers.new result }
{
    answers[place] = first;
    answers[place + 1] = second;
    answers[place + 2] = third;
    answers[place + 3] = fourth;
    place + 4
}
