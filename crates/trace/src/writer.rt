// Lines written into a buffer. The contracts promise each byte, in memory that is lent, so these are functions and no Display. The buffer and the place are
// two parameters: a struct that held the buffer by `&mut` would need one clause more in each of them, that it still holds the same buffer.
ghost use Rattle.std.specs.Prelude.{◌+◌, ◌≤◌, ◌++◌, length};
ghost use Rattle.lines.specs.Lines.{hex_digits};
ghost use Rattle.trace.specs.Buffers.{Put};
ghost use Rattle.trace.specs.Answers.{decimal, numbered_line, trap_text, level_text, entry_text, told_text};
ghost use Rattle.trace.specs.Answers.{value_line, flag_line, granted_line, trapped_line, refused_line, answer_line, broken_line};

use pmp::{NONE, Refusal};
use steps::{Answer, Level, Trap};

// Each function writes from a place on and answers the place behind what it wrote. The texts are short: `copy_from_slice` takes twice the instructions here.
pub(crate) fn put(text: &[u8], out: &mut [u8], place: usize) -> usize
    requires { place + length text.now ≤ length out.old }
    ensures { Put out.old place text.now out.new result }
{
    for i in 0..text.len() {
        out[place + i] = text[i];
    }
    place + text.len()
}

// A name and the digits of a word.
pub(crate) fn put_word(name: &[u8], word: u64, out: &mut [u8], place: usize) -> usize
    requires { place + length name.now + 16 ≤ length out.old }
    ensures { Put out.old place (name.now ++ hex_digits 16 word) out.new result }
{
    let next = put(name, out, place);
    lines::write_word(word, out, next);
    next + 16
}

// Most numbers have one digit.
pub(crate) fn put_decimal(number: u64, out: &mut [u8], place: usize) -> usize
    requires { place + length (decimal number) ≤ length out.old }
    ensures { Put out.old place (decimal number) out.new result }
{
    if number < 10 {
        out[place] = 48 + number as u8;
        return place + 1;
    }
    let mut digits = [0u8; 20];
    let count = io::decimal(number, &mut digits);
    put(&digits[..count], out, place)
}

#[tactic(auto, unfolding(lines::specs::Lines::bytes_of))]
fn put_flag(flag: bool, out: &mut [u8], place: usize) -> usize
    requires { place + 9 ≤ length out.old }
    ensures { Put out.old place (flag_line flag) out.new result }
{
    if flag {
        put(b"done yes\n", out, place)
    } else {
        put(b"done no\n", out, place)
    }
}

#[tactic(auto, using(crate::proofs::Writing::parts), unfolding(crate::specs::Answers::trap_text, lines::specs::Lines::bytes_of))]
fn put_trap(trap: Trap, out: &mut [u8], place: usize) -> usize
    requires { place + 30 ≤ length out.old }
    ensures { Put out.old place (trap_text trap) out.new result }
{
    match trap {
        Trap::Exception(cause) => {
            let next = put(b"exception ", out, place);
            put_decimal(cause, out, next)
        }
        Trap::Interrupt(number) => {
            let next = put(b"interrupt ", out, place);
            put_decimal(number, out, next)
        }
    }
}

#[tactic(auto, unfolding(crate::specs::Answers::level_text, lines::specs::Lines::bytes_of))]
fn put_level(level: Level, out: &mut [u8], place: usize) -> usize
    requires { place + 1 ≤ length out.old }
    ensures { Put out.old place (level_text level) out.new result }
{
    match level {
        Level::Supervisor => put(b"S", out, place),
        Level::Machine => put(b"M", out, place),
    }
}

// No entry has more than two digits.
#[tactic(auto, using(crate::proofs::Writing::parts), unfolding(crate::specs::Answers::entry_text, lines::specs::Lines::bytes_of))]
fn put_entry(entry: u8, out: &mut [u8], place: usize) -> usize
    requires { place + 11 ≤ length out.old }
    ensures { Put out.old place (entry_text entry) out.new result }
{
    let next = put(b" entry ", out, place);
    if entry < NONE {
        put_decimal(entry as u64, out, next)
    } else {
        put(b"none", out, next)
    }
}

// Only the trap of an access tells an entry.
#[tactic(auto, using(crate::proofs::Writing::parts), unfolding(crate::specs::Answers::told_text))]
fn put_told(accessed: bool, entry: u8, out: &mut [u8], place: usize) -> usize
    requires { place + 11 ≤ length out.old }
    ensures { Put out.old place (told_text accessed entry) out.new result }
{
    if accessed {
        put_entry(entry, out, place)
    } else {
        place
    }
}

// A line of a name and a number.
#[tactic(auto, using(crate::proofs::Writing::parts), unfolding(lines::specs::Lines::bytes_of))]
pub(crate) fn put_numbered(name: &[u8], number: u64, out: &mut [u8], place: usize) -> usize
    requires { place + length name.now + 21 ≤ length out.old }
    ensures { Put out.old place (numbered_line name.now number) out.new result }
{
    let next = put(name, out, place);
    let end = put_decimal(number, out, next);
    put(b"\n", out, end)
}

// The line of a refusal, which tells its number.
pub(crate) fn put_refused(refusal: Refusal, out: &mut [u8], place: usize) -> usize
    requires { place + 29 ≤ length out.old }
    ensures { Put out.old place (refused_line refusal) out.new result }
{
    put_numbered(b"refused ", u64::from(refusal), out, place)
}

#[tactic(auto, using(crate::proofs::Writing::parts), unfolding(lines::specs::Lines::bytes_of))]
fn put_value(old: u64, out: &mut [u8], place: usize) -> usize
    requires { place + 64 ≤ length out.old }
    ensures { Put out.old place (value_line old) out.new result }
{
    let next = put_word(b"done ", old, out, place);
    put(b"\n", out, next)
}

#[tactic(auto, using(crate::proofs::Writing::parts), unfolding(lines::specs::Lines::bytes_of))]
fn put_granted(entry: u8, out: &mut [u8], place: usize) -> usize
    requires { place + 64 ≤ length out.old }
    ensures { Put out.old place (granted_line entry) out.new result }
{
    let mut next = put(b"granted", out, place);
    next = put_entry(entry, out, next);
    put(b"\n", out, next)
}

#[tactic(auto, using(crate::proofs::Writing::parts), unfolding(lines::specs::Lines::bytes_of))]
fn put_trapped(
    accessed: bool,
    trap: Trap,
    level: Level,
    entry: u8,
    out: &mut [u8],
    place: usize,
) -> usize
    requires { place + 64 ≤ length out.old }
    ensures { Put out.old place (trapped_line accessed trap level entry) out.new result }
{
    let mut next = put(b"trapped ", out, place);
    next = put_trap(trap, out, next);
    next = put(b" to ", out, next);
    next = put_level(level, out, next);
    next = put_told(accessed, entry, out, next);
    put(b"\n", out, next)
}

// The line that answers a record, of an access or of another step. No line is longer than 64 bytes.
#[tactic(auto, unfolding(crate::specs::Answers::answer_line, lines::specs::Lines::bytes_of))]
pub(crate) fn put_answer(accessed: bool, answer: Answer, out: &mut [u8], place: usize) -> usize
    requires { place + 64 ≤ length out.old }
    ensures { Put out.old place (answer_line accessed answer) out.new result }
{
    match answer {
        Answer::Done => put(b"done\n", out, place),
        Answer::DoneValue(old) => put_value(old, out, place),
        Answer::DoneFlag(flag) => put_flag(flag, out, place),
        Answer::Granted(entry) => put_granted(entry, out, place),
        Answer::Trapped(trap, level, entry) => put_trapped(
            accessed, trap, level, entry, out, place,
        ),
        Answer::Refused(refusal) => put_refused(refusal, out, place),
    }
}

#[tactic(auto, unfolding(crate::specs::Answers::broken_line, lines::specs::Lines::bytes_of))]
pub(crate) fn put_broken(number: u64, out: &mut [u8], place: usize) -> usize
    requires { place + 64 ≤ length out.old }
    ensures { Put out.old place (broken_line number) out.new result }
{
    put_numbered(b"refused 8 record ", number, out, place)
}
