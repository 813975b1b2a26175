// The numbers of an answer's parts.
ghost use Rattle.std.specs.Prelude.{◌≡◌};
ghost use Rattle.steps.specs.Number.{level_number, cause_word, answer_words, refused_numbers, refusal_of};

use crate::{Answer, Level, Trap};
use pmp::Refusal;

impl From<Level> for u64 {
    ghost from_gives = { λ level number. number ≡ level_number level };

    fn from(level: Level) -> u64 {
        level as u64
    }
}

impl From<Trap> for u64 {
    ghost from_gives = { λ trap word. word ≡ cause_word trap };

    fn from(trap: Trap) -> u64 {
        match trap {
            Trap::Exception(cause) => cause,
            Trap::Interrupt(number) => 0x8000000000000000u64.wrapping_add(number),
        }
    }
}

impl Answer {
    // The refusal, where the answer is one.
    pub fn refusal(self) -> Option<Refusal>
        ensures { result ≡ refusal_of self }
    {
        match self {
            Answer::Refused(refusal) => Some(refusal),
            _ => None,
        }
    }
}

// The four words of a refusal by its number, whatever the number: an answer names the refusals of `pmp` alone.
pub fn refused_words(number: u64) -> [u64; 4]
    ensures { result ≡ refused_numbers number }
{
    [5, number, 0, 0]
}

// The four words of an answer.
impl From<Answer> for [u64; 4] {
    ghost from_gives = { λ answer words. words ≡ answer_words answer };

    fn from(answer: Answer) -> [u64; 4] {
        match answer {
            Answer::Done => [0, 0, 0, 0],
            Answer::DoneValue(value) => [1, value, 0, 0],
            Answer::DoneFlag(flag) => [2, u64::from(flag), 0, 0],
            Answer::Granted(entry) => [3, 0, 0, u64::from(entry)],
            Answer::Trapped(trap, level, entry) => {
                [4, u64::from(trap), u64::from(level), u64::from(entry)]
            }
            Answer::Refused(refusal) => refused_words(u64::from(refusal)),
        }
    }
}
