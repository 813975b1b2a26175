// The text of a memory: a line of 22 bytes for the address of its first word, then one for each word.
#![tactic(auto)]

ghost use Rattle.std.specs.Prelude.{◌≡◌, ◌≤◌, length, IfSome};
ghost use Rattle.memory_text.specs.MemoryText.{is_memory_text, read_memory, stored_in};

// What is read of a text: the address of the first word, and how many words there are.
#[derive(Clone, Copy, Debug, PartialEq, Eq)]
pub struct Reading {
    pub base: u64,
    pub count: usize,
}

// Whether a text is in the form, with at most 65,536 words.
fn is_memory_text(text: &[u8]) -> bool
    ensures { result ≡ is_memory_text text.now }
{
    let total = text.len() / 22;
    if text.len() != 22 * total {
        return false;
    }
    if total == 0 {
        return false;
    }
    if total > 65537 {
        return false;
    }
    if lines::read_line(text, 0, b"base=").is_none() {
        return false;
    }
    for i in 1..total {
        if lines::read_line(text, 22 * i, b"word=").is_none() {
            return false;
        }
    }
    true
}

// Reads base and words; the words go to the front of the slice. A text that is not in the form, that has more than 65,536 words, or more
// than the slice has room for, leaves the slice as it was.
#[tactic(auto, unfolding(crate::specs::MemoryText::is_taken, crate::specs::MemoryText::read_memory, crate::specs::MemoryText::stored_in))]
pub fn read(text: &[u8], words: &mut [u64]) -> Option<Reading>
    ensures value { result ≡ read_memory text.now (length words.old) }
    ensures words_after { words.new ≡ stored_in text.now words.old }
    ensures count_in_bounds { IfSome result (λ reading. reading.count ≤ length words.old) }
{
    if !is_memory_text(text) {
        return None;
    }
    let count = text.len() / 22 - 1;
    if words.len() < count {
        return None;
    }
    // No word is missing in a text in the form.
    for i in 0..count {
        words[i] = lines::read_word(text, 22 * i + 27).unwrap_or(0);
    }
    let base = lines::read_word(text, 5).unwrap_or(0);
    Some(Reading { base, count })
}
