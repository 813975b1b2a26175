// Saved texts as programs read and write them: in either form, and with the line of a refusal in place of a text.
ghost use Rattle.std.specs.Prelude.{◌≡◌, ◌≤◌, length};
ghost use Rattle.std.proofs.lemmas.List.Edits.{sets};
ghost use Rattle.steps.specs.Number.{refusal_of};
ghost use Rattle.trace.specs.Buffers.{Put, written_front, written_length};
ghost use Rattle.trace.specs.SavedTexts.{form_by_length, form_for, state_text, converted_output, refusal_text, outcome_length};

use crate::writer::put_refused;
use hart::Hart;
use state::State;
use steps::Answer;
use text::Form;

// The form that a text is read in.
pub(crate) fn form_by_length(text: &[u8]) -> Form
    ensures { result ≡ form_by_length text.now }
{
    if text.len() == text::text_length(Form::Second) {
        return Form::Second;
    }
    Form::First
}

// The form that a state is written in.
fn form_for(state: State) -> Form
    ensures { result ≡ form_for state }
{
    if state::first_form_holds(state) {
        return Form::First;
    }
    Form::Second
}

// Behind a call that was to write a text to the front: writes the line of its refusal, if any, in its place. Answers the length of the text or the line.
fn put_refusal(form: Form, answer: Answer, out: &mut [u8]) -> usize
    requires { 29 ≤ length out.old }
    ensures value { result ≡ outcome_length form (refusal_of answer) }
    ensures out_after { out.new ≡ sets out.old 0 (refusal_text (refusal_of answer)) }
{
    match answer.refusal() {
        None => text::text_length(form),
        Some(refusal) => put_refused(refusal, out, 0),
    }
}

// The saved text of a hart, or the refusal in its place.
pub(crate) fn put_state(hart: Hart, out: &mut [u8]) -> usize
    requires { 1094 ≤ length out.old }
    ensures { Put out.old 0 (state_text hart) out.new result }
{
    let state = hart.state;
    let form = form_for(state);
    let answer = hart.save(form, out);
    put_refusal(form, answer, out)
}

// Converts a text to a form and writes it, or the refusal in its place, to the front of a buffer of at least 1,094 bytes. A smaller one stays as it was, and 0
// bytes are told, as many as a program then writes.
pub fn write_converted(to: Form, text: &[u8], out: &mut [u8]) -> usize
    ensures value { result ≡ written_length 1094 (converted_output to text.now) out.old }
    ensures out_after { out.new ≡ written_front 1094 (converted_output to text.now) out.old }
    ensures upper_bound { result ≤ length out.old }
{
    if out.len() < 1094 {
        return 0;
    }
    let answer = hart::convert(to, text, out);
    put_refusal(to, answer, out)
}
