// Saving a hart as a text, reading a text back, and converting a text to the other form.
ghost use Rattle.std.specs.Prelude.{◌≡◌, true, Ok, Err, IfOk};
ghost use Rattle.steps.specs.Number.{answer_numbers};
ghost use Rattle.state.specs.Hold.{can_hold};
ghost use Rattle.state.specs.Words.{words_of};
ghost use Rattle.text.specs.Text.{other};
ghost use Rattle.hart.specs.Steps.{hart_with};
ghost use Rattle.hart.specs.Saved.{outcome_answer, form_holds, saved_answer, saved_numbers, saved_buffer, by_text, restored, restored_numbers};
ghost use Rattle.hart.specs.Saved.{converted_answer, converted_numbers, converted_buffer};

use crate::stepping::map_for;
use crate::{Hart, Stepped};
use map::Map;
use pmp::Refusal;
use state::State;
use steps::Answer;
use text::Form;

// Whether a text of the form can hold the state.
fn form_holds(form: Form, state: State) -> bool
    ensures { result ≡ form_holds form state }
{
    match form {
        Form::First => state::first_form_holds(state),
        Form::Second => true,
    }
}

// The form that a text is converted from. Only a conversion asks for it, so that it is no method of `Form`.
fn other_form(form: Form) -> Form
    ensures { result ≡ other form }
{
    match form {
        Form::First => Form::Second,
        Form::Second => Form::First,
    }
}

// What a call answers that is done or refused.
fn outcome_answer(outcome: Result<(), Refusal>) -> Answer
    ensures { result ≡ outcome_answer outcome }
{
    match outcome {
        Ok(()) => Answer::Done,
        Err(refusal) => Answer::Refused(refusal),
    }
}

// The state in a text of a form, whose words are left where they are lent: refusal 4, then 5. In line, as is `write_state`: a refusal that needs no reading
// would else pay for a state that is handed back, and a save for words that are handed on.
#[inline(always)]
fn read_state(form: Form, text: &[u8], words: &mut [u64; 43]) -> Result<State, Refusal>
    ensures value { result ≡ by_text form text.now Err Ok }
    ensures words_after { IfOk result (λ state. (words.new ≡ words_of state) × (can_hold state ≡ true)) }
{
    if !text::read(form, text, words) {
        return Err(Refusal::Text);
    }
    let state = State::from(*words);
    if !(state::words_can_hold(words) & form_holds(form, state)) {
        return Err(Refusal::TextState);
    }
    Ok(state)
}

// Writes a state that a hart can hold, which is given with its words, as a text of a form to the front of a buffer: refusal 6, then 12.
#[inline(always)]
fn write_state(
    form: Form,
    state: State,
    words: &[u64; 43],
    buffer: &mut [u8],
) -> Result<(), Refusal>
    requires { (words.now ≡ words_of state) × (can_hold state ≡ true) }
    ensures value { outcome_answer result ≡ saved_answer form (hart_with state) buffer.old }
    ensures buffer_after { buffer.new ≡ saved_buffer form (hart_with state) buffer.old }
{
    if buffer.len() < text::text_length(form) {
        return Err(Refusal::Buffer);
    }
    if !form_holds(form, state) {
        return Err(Refusal::Form);
    }
    text::write(form, words, buffer);
    Ok(())
}

// Reads a text of the other form and writes its state in the form asked for.
fn convert_state(to: Form, text: &[u8], buffer: &mut [u8]) -> Result<(), Refusal>
    ensures value { outcome_answer result ≡ converted_answer to text.now buffer.old }
    ensures buffer_after { buffer.new ≡ converted_buffer to text.now buffer.old }
{
    let mut words = [0u64; 43];
    let state = read_state(other_form(to), text, &mut words)?;
    write_state(to, state, &words, buffer)
}

impl Hart {
    // Writes the hart's text in a form to the front of a buffer. A refused save leaves the buffer as it was.
    pub fn save(self, form: Form, buffer: &mut [u8]) -> Answer
        ensures value { result ≡ saved_answer form self buffer.old }
        ensures result_value { answer_numbers result ≡ saved_numbers form self buffer.old }
        ensures buffer_after { buffer.new ≡ saved_buffer form self buffer.old }
    {
        let state = self.state;
        let words = <[u64; 43]>::from(state);
        if !state::words_can_hold(&words) {
            return Answer::Refused(Refusal::State);
        }
        outcome_answer(write_state(form, state, &words, buffer))
    }

    // Reads a text of a form back: its hart, with the map compiled for it. A refused text hands back the hart and map that were given.
    pub fn restore(self, map: Map, form: Form, text: &[u8]) -> Stepped
        ensures value { result ≡ restored form self map text.now }
        ensures answer_value { answer_numbers result.answer ≡ restored_numbers form self map text.now }
    {
        let mut words = [0u64; 43];
        match read_state(form, text, &mut words) {
            Ok(state) => {
                let fresh = map_for(state.pmp);
                Stepped {
                    hart: Hart { state },
                    map: fresh,
                    answer: Answer::Done,
                }
            }
            Err(refusal) => Stepped {
                hart: self,
                map,
                answer: Answer::Refused(refusal),
            },
        }
    }
}

// Reads a text of the other form, and writes its hart's text in the form asked for to the front of a buffer. A refusal leaves the buffer as it was. No
// map is wanted and the state is judged already, so it goes through neither `restore` nor `save` (docs/DECISIONS.md).
pub fn convert(to: Form, text: &[u8], buffer: &mut [u8]) -> Answer
    ensures value { result ≡ converted_answer to text.now buffer.old }
    ensures result_value { answer_numbers result ≡ converted_numbers to text.now buffer.old }
    ensures buffer_after { buffer.new ≡ converted_buffer to text.now buffer.old }
{
    outcome_answer(convert_state(to, text, buffer))
}
