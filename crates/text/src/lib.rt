// The saved text in its two forms: the 43 words of a hart as lines. The first form has 41 of them, in 1,027 bytes. The second begins with a line that tells
// the form, and has satp and the grain too: 1,094 bytes.
#![tactic(auto)]

ghost use Rattle.std.specs.Prelude.{◌≡◌, true, ◌≤◌, length};
ghost use Rattle.std.proofs.lemmas.List.Edits.{sets};
ghost use Rattle.lines.specs.Fields.{all_ok, words_read};
ghost use Rattle.text.specs.Text.{form_numbered, length_of, head_length, line_count, has_room_for, written_to, read_text};
ghost use Rattle.text.specs.Template.{in_order, lines_by};

// The forms of a text.
#[derive(Clone, Copy, Debug, PartialEq, Eq)]
pub enum Form {
    First,
    Second,
}

// A number that is no form's.
#[derive(Clone, Copy, Debug, PartialEq, Eq)]
pub struct UnknownForm(pub u64);

impl TryFrom<u64> for Form {
    type Error = UnknownForm;

    ghost try_from_gives = { λ number r. r ≡ form_numbered number };

    // The form of a number, 1 or 2.
    fn try_from(number: u64) -> Result<Self, UnknownForm> {
        match number {
            1 => Ok(Form::First),
            2 => Ok(Form::Second),
            _ => Err(UnknownForm(number)),
        }
    }
}

// The bytes of the line that tells the second form.
const HEAD: usize = 22;

// The second form's text of words that are all 0. The first form has the lines behind the first one, without the last two.
const ZEROS: [u8; 1094] = *b"form=0000000000000002\n\
    mode=0000000000000000\n\
    pc=0000000000000000\n\
    mstatus=0000000000000000\n\
    medeleg=0000000000000000\n\
    mideleg=0000000000000000\n\
    mie=0000000000000000\n\
    mip=0000000000000000\n\
    lines=0000000000000000\n\
    mtvec=0000000000000000\n\
    mcounteren=0000000000000000\n\
    mcountinhibit=0000000000000000\n\
    mscratch=0000000000000000\n\
    mepc=0000000000000000\n\
    mcause=0000000000000000\n\
    mtval=0000000000000000\n\
    stvec=0000000000000000\n\
    scounteren=0000000000000000\n\
    sscratch=0000000000000000\n\
    sepc=0000000000000000\n\
    scause=0000000000000000\n\
    stval=0000000000000000\n\
    mcycle=0000000000000000\n\
    minstret=0000000000000000\n\
    pmpcfg0=0000000000000000\n\
    pmpcfg2=0000000000000000\n\
    pmpaddr0=0000000000000000\n\
    pmpaddr1=0000000000000000\n\
    pmpaddr2=0000000000000000\n\
    pmpaddr3=0000000000000000\n\
    pmpaddr4=0000000000000000\n\
    pmpaddr5=0000000000000000\n\
    pmpaddr6=0000000000000000\n\
    pmpaddr7=0000000000000000\n\
    pmpaddr8=0000000000000000\n\
    pmpaddr9=0000000000000000\n\
    pmpaddr10=0000000000000000\n\
    pmpaddr11=0000000000000000\n\
    pmpaddr12=0000000000000000\n\
    pmpaddr13=0000000000000000\n\
    pmpaddr14=0000000000000000\n\
    pmpaddr15=0000000000000000\n\
    satp=0000000000000000\n\
    grain=0000000000000000\n";

// Where the digits of each word start, behind the line that tells the form. They are written out, though ZEROS has them too: a constant has no computed values.
const PLACES: [usize; 43] = [
    5, 25, 50, 75, 100, 121, 142, 165, 188, 216, 247, 273, 295, 319, 342, 365, 393, 419, 441, 465,
    488, 512, 538, 563, 588, 614, 640, 666, 692, 718, 744, 770, 796, 822, 848, 875, 902, 929, 956,
    983, 1010, 1032, 1055,
];

// The bytes of a text.
pub fn text_length(form: Form) -> usize
    ensures value { result ≡ length_of form }
    ensures lower_bound { (1027 ≤ result) × (result ≤ 1094) }
{
    match form {
        Form::First => 1027,
        Form::Second => 1094,
    }
}

// The bytes of the line that tells the form, if it has one.
fn head_length(form: Form) -> usize
    ensures value { result ≡ head_length form }
    ensures upper_bound { result ≤ 22 }
{
    match form {
        Form::First => 0,
        Form::Second => HEAD,
    }
}

// The words that the form has lines for.
fn line_count(form: Form) -> usize
    ensures value { result ≡ line_count form }
    ensures upper_bound { result ≤ 43 }
{
    match form {
        Form::First => 41,
        Form::Second => 43,
    }
}

// Writes the text of words to the front of a buffer and answers yes; a buffer shorter than the text stays as it was. A word that is missing is 0.
// A yes or no is enough: what is promised of the buffer stands in a clause of its own.
#[tactic(auto, unfolding(crate::specs::Text::written_to))]
pub fn write(form: Form, words: &[u64], buffer: &mut [u8]) -> bool
    ensures value { result ≡ has_room_for form buffer.old }
    ensures buffer_after { buffer.new ≡ written_to form words.now buffer.old }
{
    let size = text_length(form);
    if buffer.len() < size {
        return false;
    }
    let head = head_length(form);
    let start = HEAD - head;
    let end = start + size;
    buffer[..size].copy_from_slice(&ZEROS[start..end]);
    let count = line_count(form);
    lines::write_words(&PLACES[0..count], words, &mut buffer[head..size]);
    true
}

// Reads line after line, up to one that is not in the form. The key of each stands in a template, from the end of the line before up to the place of its
// digits. Key and word are read apart: as read_word has this caller too, lines::read_line stays small, and is inlined where its key is a constant.
#[tactic(auto, using(crate::proofs::Template::line_behind, crate::proofs::Template::line_inside))]
fn read_lines(template: &[u8], places: &[usize], text: &[u8], words: &mut [u64]) -> bool
    requires { (in_order (length template.now) places.now 0 ≡ true) × (length places.now ≤ length words.old) }
    ensures value { result ≡ all_ok (lines_by template.now places.now text.now 0) }
    ensures words_after { result ≡ true → words.new ≡ sets words.old 0 (words_read (lines_by template.now places.now text.now 0)) }
{
    let mut start: usize = 0;
    for (i, place) in places.iter().enumerate() {
        if !lines::has_key(text, start, &template[start..*place]) {
            return false;
        }
        let Some(word) = lines::read_word(text, *place) else {
            return false;
        };
        words[i] = word;
        start = *place + 17;
    }
    true
}

// Reads a text: the words of its lines, if all of them are in the form. Words that the form has no line for are 0, and so are all where the text is not in
// the form. They are written where the caller keeps them: handed back, they would be copied. So a yes or no is enough: what is promised of the words stands in a
// clause of its own.
pub fn read(form: Form, text: &[u8], words: &mut [u64; 43]) -> bool
    ensures value { result ≡ (read_text form text.now).ok }
    ensures words_after { words.new ≡ (read_text form text.now).words }
{
    *words = [0u64; 43];
    if text.len() != text_length(form) {
        return false;
    }
    let head = head_length(form);
    let count = line_count(form);
    let start = HEAD - head;
    let headed = lines::has_key(text, 0, &ZEROS[start..HEAD]);
    let lined = read_lines(&ZEROS[HEAD..], &PLACES[0..count], &text[head..], words);
    if headed & lined {
        return true;
    }
    *words = [0u64; 43];
    false
}
