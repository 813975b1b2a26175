// A run of steps: the only loop over them.
ghost use Rattle.std.specs.Prelude.{◌≡◌, true, ◌+◌, ◌^◌, ◌<◌, length, set};
ghost use Rattle.std.proofs.lemmas.List.Edits.{sets};
ghost use Rattle.steps.specs.Number.{answer_interrupt, answer_numbers};
ghost use Rattle.steps.specs.Decode.{decoded, steps_of, name_steps};
ghost use Rattle.paging.specs.Memory.{memory_of};
ghost use Rattle.state.specs.Words.{state_of};
ghost use Rattle.engine.specs.Taking.{named_taken, named_state};
ghost use Rattle.engine.specs.Runs.{lent, after_all, any_remaps, answers_of, ran};

use crate::{Taken, Told, taking};
use paging::Memory;
use steps::{Answer, Numbers};

// Stores a word where the slice has its place. `get_mut` is no plainer: it asks the same, in as many lines.
fn put(words: &mut [u64], place: usize, word: u64)
    ensures { words.new ≡ set words.old place word }
{
    if place < words.len() {
        words[place] = word;
    }
}

// Word by word, as the slice may end between two of them.
fn put_answer(answer: Answer, answers: &mut [u64], place: usize)
    requires { (answer_interrupt answer ≡ 0) × (place + 3 < 2 ^ 64) }
    ensures { answers.new ≡ sets answers.old place (answer_numbers answer) }
{
    let numbers = <[u64; 4]>::from(answer);
    put(answers, place, numbers[0]);
    put(answers, place + 1, numbers[1]);
    put(answers, place + 2, numbers[2]);
    put(answers, place + 3, numbers[3]);
}

// The step that three numbers name, on the words of a hart, as `step` does it. Numbers that name none do nothing.
pub fn step_named(words: &mut [u64; 43], memory: Memory<'_>, held: bool, numbers: Numbers) -> Taken
    ensures value { result ≡ named_taken held (state_of words.old) (memory_of memory.entry) (decoded numbers.step numbers.a numbers.b) }
    ensures words_after { state_of words.new ≡ named_state held (state_of words.old) (memory_of memory.entry) (decoded numbers.step numbers.a numbers.b) }
{
    match steps::decode(numbers) {
        Some(step) => taking::step(words, memory, held, step),
        None => Taken {
            answer: Answer::Done,
            told: Told { held, remap: false },
        },
    }
}

// The same with the answer written from a place on; `step_into` is this for any place. Where a program has two loops over steps, that of a run and that of a trace,
// this is compiled once and called by both, and an answer handed back would be copied at each step.
fn take_into(
    words: &mut [u64; 43],
    memory: Memory<'_>,
    held: bool,
    numbers: Numbers,
    answers: &mut [u64],
    place: usize,
) -> Told
    requires { place + 3 < 2 ^ 64 }
    ensures value { result ≡ (named_taken held (state_of words.old) (memory_of memory.entry) (decoded numbers.step numbers.a numbers.b)).told }
    ensures words_after { state_of words.new ≡ named_state held (state_of words.old) (memory_of memory.entry) (decoded numbers.step numbers.a numbers.b) }
    ensures answers_after { answers.new ≡ sets answers.old place (answer_numbers (named_taken held (state_of words.old) (memory_of memory.entry) (decoded numbers.step numbers.a numbers.b)).answer) }
{
    let next = step_named(words, memory, held, numbers);
    let answer = next.answer;
    put_answer(answer, answers, place);
    next.told
}

// A step by its numbers, with the answer written as four words from a place on, as far as the slice goes.
pub fn step_into(
    words: &mut [u64; 43],
    memory: Memory<'_>,
    held: bool,
    numbers: Numbers,
    answers: &mut [u64],
    place: usize,
) -> Told
    ensures value { result ≡ (named_taken held (state_of words.old) (memory_of memory.entry) (decoded numbers.step numbers.a numbers.b)).told }
    ensures words_after { state_of words.new ≡ named_state held (state_of words.old) (memory_of memory.entry) (decoded numbers.step numbers.a numbers.b) }
    ensures answers_after { answers.new ≡ sets answers.old place (answer_numbers (named_taken held (state_of words.old) (memory_of memory.entry) (decoded numbers.step numbers.a numbers.b)).answer) }
{
    if answers.len() <= place {
        let mut none = [0u64; 1];
        return take_into(words, memory, held, numbers, &mut none, 0);
    }
    take_into(words, memory, held, numbers, answers, place)
}

// All steps in order, each given what the one before left. A step has three words and its answer four, so the place of the answer goes along as a number of its own.
// Gives whether the map has to be compiled anew.
fn run_steps(words: &mut [u64; 43], memory: Memory<'_>, steps: &[u64], answers: &mut [u64]) -> bool
    requires { name_steps steps.now ≡ true }
    ensures value { result ≡ any_remaps (state_of words.old) (lent (memory_of memory.entry) (steps_of steps.now)) }
    ensures words_after { state_of words.new ≡ after_all (state_of words.old) (lent (memory_of memory.entry) (steps_of steps.now)) }
    ensures answers_after { answers.new ≡ sets answers.old 0 (answers_of (state_of words.old) (lent (memory_of memory.entry) (steps_of steps.now))) }
{
    let mut held = state::words_can_hold(words);
    let mut remap = false;
    let mut rest = steps;
    let mut place: usize = 0;
    while let [step, a, b, behind @ ..] = rest {
        let numbers = Numbers {
            step: *step,
            a: *a,
            b: *b,
        };
        let next = take_into(words, memory, held, numbers, answers, place);
        held = next.held;
        remap = remap | next.remap;
        rest = behind;
        place += 4;
    }
    remap
}

// Runs the steps that the numbers name, three for each, on the words of a hart, and writes their answers, four words each, from the front of a slice, as
// far as it goes. Gives whether the map has to be compiled anew. Where the words are not 43, or three numbers name no step, nothing is done.
#[tactic(auto, unfolding(crate::specs::Runs::ran))]
pub fn run(words: &mut [u64], memory: Memory<'_>, steps: &[u64], answers: &mut [u64]) -> bool
    ensures value { result ≡ (ran words.old (memory_of memory.entry) steps.now answers.old).remap }
    ensures words_after { words.new ≡ (ran words.old (memory_of memory.entry) steps.now answers.old).words }
    ensures answers_after { answers.new ≡ (ran words.old (memory_of memory.entry) steps.now answers.old).answers }
    ensures words_after_2 { state_of words.new ≡ (ran words.old (memory_of memory.entry) steps.now answers.old).state }
{
    let Some(words) = words.as_mut_array::<43>() else {
        return false;
    };
    if !steps::name_steps(steps) {
        return false;
    }
    run_steps(words, memory, steps, answers)
}
