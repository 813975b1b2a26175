// The text of a ledger: twelve lines, one for each of its words, in 295 bytes.
#![tactic(auto)]

ghost use Rattle.std.specs.Prelude.{◌≡◌, false, length, IfSome, IsNone};
ghost use Rattle.lines.specs.Lines.{lines_of, words_in, is_text};
ghost use Rattle.ledger_text.specs.LedgerText.{keys, read_ledger, written_to, written_length};

use ledger::Ledger;

// The bytes of a text.
const LENGTH: usize = 295;

// The text of a new ledger.
const ZEROS: [u8; 295] = *b"tenant0=0000000000000000\n\
    tenant1=0000000000000000\n\
    tenant2=0000000000000000\n\
    tenant3=0000000000000000\n\
    tenant4=0000000000000000\n\
    tenant5=0000000000000000\n\
    tenant6=0000000000000000\n\
    tenant7=0000000000000000\n\
    house=0000000000000000\n\
    idle=0000000000000000\n\
    current=0000000000000000\n\
    resting=0000000000000000\n";

// Where the digits of each word start. They are written out, though ZEROS has them too: a constant has no computed values.
const PLACES: [usize; 12] = [8, 33, 58, 83, 108, 133, 158, 183, 206, 228, 253, 278];

fn text_of(words: &[u64; 12]) -> [u8; 295]
    ensures { result ≡ lines_of keys 0 words.now }
{
    let mut text = ZEROS;
    lines::write_words(&PLACES, words, &mut text);
    text
}

// The words behind the keys, in a text of the right length. Where one is broken, so is the text.
fn words_in(text: &[u8]) -> Option<[u64; 12]>
    requires { length text.now ≡ 295 }
    ensures read { IfSome result (λ words. words ≡ words_in keys text.now) }
    ensures broken { IsNone result → is_text keys text.now ≡ false }
{
    let mut words = [0u64; 12];
    for (i, place) in PLACES.iter().enumerate() {
        words[i] = lines::read_word(text, *place)?;
    }
    Some(words)
}

// Reads the ledger of a text in the form, which is the text of the words in it. It is written again and compared: the reader of lines by a template is
// private to `text`, and this crate does not stand on `text`.
pub fn read(text: &[u8]) -> Option<Ledger>
    ensures { result ≡ read_ledger text.now }
{
    if text.len() != LENGTH {
        return None;
    }
    let words = words_in(text)?;
    let again = text_of(&words);
    if text != &again[..] {
        return None;
    }
    if !ledger::is_ledger(&words) {
        return None;
    }
    Some(ledger::load(&words))
}

// Writes the text of a ledger to the front of a buffer and answers its length; nothing where the buffer is shorter.
#[tactic(auto, unfolding(crate::specs::LedgerText::written_to))]
pub fn write(ledger: Ledger, buffer: &mut [u8]) -> Option<usize>
    ensures value { result ≡ written_length buffer.old }
    ensures buffer_after { buffer.new ≡ written_to ledger buffer.old }
{
    if buffer.len() < LENGTH {
        return None;
    }
    let mut words = [0u64; 12];
    ledger::store(ledger, &mut words);
    let text = text_of(&words);
    buffer[..LENGTH].copy_from_slice(&text);
    Some(LENGTH)
}
