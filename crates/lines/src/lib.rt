// Texts of lines, each a key, `=`, sixteen hexadecimal digits and a line feed: words are written to given places, and lines are read.
#![tactic(auto)]

ghost use Rattle.std.specs.Prelude.{◌≡◌, ◌+◌, ◌≤◌, ◌<◌, ◌%◌, length};
ghost use Rattle.std.proofs.lemmas.List.Edits.{sets};
ghost use Rattle.lines.specs.Lines.{hex_digit, hex_digits, digit_value, number_at};
ghost use Rattle.lines.specs.Places.{has_room, with_word, with_words};
ghost use Rattle.lines.specs.Fields.{has_key, are_digits, number_given, word_at, line_at};

// The lower-case hexadecimal digit of the lowest four bits.
fn hex_digit(number: u64) -> u8
    ensures { result ≡ hex_digit (number % 16) }
{
    let digit = (number % 16) as u8;
    if digit < 10 { 48 + digit } else { 87 + digit }
}

// What a lower-case hexadecimal digit stands for.
fn digit_value(byte: u8) -> u64
    ensures value { result ≡ digit_value byte }
    ensures upper_bound { result < 16 }
{
    let code = u64::from(byte);
    if code < 58 {
        code % 16
    } else {
        (code + 9) % 16
    }
}

// Whether so many bytes from a place on lie within a text. Here and below a place goes beside the text, and no slice begins there: the places are numbers that
// the definitions of a text's lines give.
fn has_room(length: usize, place: usize, size: usize) -> bool
    ensures { result ≡ has_room length place size }
{
    size <= length && place <= length - size
}

#[tactic(auto, using(crate::proofs::Digits::digits_start, crate::proofs::Digits::digits_more, crate::proofs::Digits::digits_all), unfolding(crate::specs::Lines::bytes_of))]
fn write_digits(word: u64, text: &mut [u8], place: usize)
    requires { place + 16 ≤ length text.old }
    ensures { text.new ≡ sets text.old place (hex_digits 16 word) }
{
    let digits = *b"0123456789abcdef";
    for j in 0..16 {
        text[place + j] = digits[((word >> (60 - 4 * j)) % 16) as usize];
    }
}

// Writes the sixteen digits of a word from a place on; nothing where they have no room.
#[tactic(auto, unfolding(crate::specs::Places::with_word))]
pub fn write_word(word: u64, text: &mut [u8], place: usize)
    ensures { text.new ≡ with_word place word text.old }
{
    if !has_room(text.len(), place, 16) {
        return;
    }
    write_digits(word, text, place);
}

// Writes a word's digits to each place.
#[tactic(auto, unfolding(crate::specs::Places::with_words))]
pub fn write_words(places: &[usize], words: &[u64], text: &mut [u8])
    ensures { text.new ≡ with_words places.now 0 words.now text.old }
{
    for (i, place) in places.iter().enumerate() {
        write_word(words.get(i).copied().unwrap_or(0), text, *place);
    }
}

// Whether a key stands at a place. Every byte is looked at, and so below: without an early end several are compared at a time.
#[tactic(auto, unfolding(crate::specs::Fields::has_key, crate::specs::Fields::are_key))]
pub fn has_key(text: &[u8], place: usize, key: &[u8]) -> bool
    ensures { result ≡ has_key text.now place key.now }
{
    if !has_room(text.len(), place, key.len()) {
        return false;
    }
    let mut same = true;
    for (i, byte) in key.iter().enumerate() {
        same = same & (text[place + i] == *byte);
    }
    same
}

// The number that sixteen bytes give as digits, and whether they are digits.
fn digits_at(text: &[u8], place: usize) -> (u64, bool)
    requires { place + 16 ≤ length text.now }
    ensures number { result.0 ≡ number_at 16 0 text.now place }
    ensures digits { result.1 ≡ are_digits 16 text.now place }
{
    let mut ok = true;
    let mut word: u64 = 0;
    for j in 0..16 {
        let byte = text[place + j];
        let value = digit_value(byte);
        ok = ok & (byte == hex_digit(value));
        word = word * 16 + value;
    }
    (word, ok)
}

// The number that the sixteen bytes from a place on give as digits, whether a word stands there or not. Where a word has no room, it is 0.
#[tactic(auto, unfolding(crate::specs::Fields::number_given))]
pub fn number_at(text: &[u8], place: usize) -> u64
    ensures { result ≡ number_given text.now place }
{
    if !has_room(text.len(), place, 17) {
        return 0;
    }
    digits_at(text, place).0
}

// Reads the sixteen digits and the line feed from a place on, if they stand there.
#[tactic(auto, unfolding(crate::specs::Fields::is_word, crate::specs::Fields::word_at))]
pub fn read_word(text: &[u8], place: usize) -> Option<u64>
    ensures { result ≡ word_at text.now place }
{
    if !has_room(text.len(), place, 17) {
        return None;
    }
    let (word, digits) = digits_at(text, place);
    let mut ok = digits;
    ok = ok & (text[place + 16] == b'\n');
    if ok { Some(word) } else { None }
}

// Reads the word of the line from a place on: a key, given with its `=`, and the word behind it.
#[tactic(auto, unfolding(crate::specs::Fields::has_key, crate::specs::Fields::line_at))]
pub fn read_line(text: &[u8], place: usize, key: &[u8]) -> Option<u64>
    ensures { result ≡ line_at text.now place key.now }
{
    if !has_key(text, place, key) {
        return None;
    }
    read_word(text, place + key.len())
}
