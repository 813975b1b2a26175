// Words as sets of bits. The laws of masks, tests, lists and folds, which the layers above cite, stand in proofs/.
#![tactic(auto)]

ghost use Rattle.std.specs.Prelude.{◌≡◌};
ghost use Rattle.bits.specs.Mask.{test_bit};

// Whether a bit of a word is 1; past the word there is none.
pub fn has_bit(word: u64, place: u64) -> bool
    ensures { result ≡ test_bit word place }
{
    if place < 64 {
        (word >> place) % 2 == 1
    } else {
        false
    }
}
