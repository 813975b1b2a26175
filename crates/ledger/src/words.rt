// A ledger in twelve words: ten totals, the current tenant, and 1 where idle time runs, else 0.
ghost use Rattle.std.specs.Prelude.{◌≡◌};
ghost use Rattle.ledger.specs.Words.{is_ledger, ledger_of, stored_in, refusal_in, posted_in};

use crate::{Ledger, Posting, Refusal};

// Whether words are a ledger's. It is no Option of the ledger: two of the words often tell that nothing changes, and then the others are not copied.
#[tactic(auto, unfolding(crate::specs::Words::is_ledger))]
pub fn is_ledger(words: &[u64]) -> bool
    ensures { result ≡ is_ledger words.now }
{
    words.len() == 12 && words[11] <= 1
}

// Reads a ledger. Words of another number are a new ledger.
#[tactic(auto, unfolding(crate::specs::Words::ledger_of))]
pub fn load(words: &[u64]) -> Ledger
    ensures { result ≡ ledger_of words.now }
{
    if words.len() != 12 {
        return Ledger::new();
    }
    let mut totals = [0u64; 10];
    totals.copy_from_slice(&words[..10]);
    Ledger {
        totals,
        tenant: words[10],
        idle: words[11] == 1,
    }
}

// Writes a ledger to twelve words; a slice of another length stays as it was.
#[tactic(auto, using(crate::proofs::WordLaws::stores), unfolding(crate::specs::Words::stored_in))]
pub fn store(ledger: Ledger, words: &mut [u64])
    ensures { words.new ≡ stored_in ledger words.old }
{
    if words.len() != 12 {
        return;
    }
    words[..10].copy_from_slice(&ledger.totals);
    words[10] = ledger.tenant;
    words[11] = u64::from(ledger.idle);
}

// The refusal of a step by the ledger that words lend, 9 before 10; none where they lend none, or there is no such step with one. A total is looked at for an
// elapsed step alone.
pub fn refusal_in(words: &[u64], step: u64, a: u64, b: u64, mode: u64) -> Option<Refusal>
    ensures { result ≡ refusal_in words.now step a b mode }
{
    if !(is_ledger(words) & (step <= 18)) {
        return None;
    }
    if (words[10] <= 7) & (step < 17) {
        return None;
    }
    load(words).refusal(step, a, b, mode)
}

// Posts a step to the ledger that words lend. Where no idle time runs, only steps 0, 10, 17 and 18 change a ledger.
pub fn post_in(words: &mut [u64], posting: Posting)
    ensures { words.new ≡ posted_in words.old posting }
{
    let step = posting.step;
    if !(is_ledger(words) & (step <= 18)) {
        return;
    }
    if (words[11] == 0) & ((step != 0) & ((step != 10) & (step < 17))) {
        return;
    }
    if let Ok(after) = load(words).post_own(posting) {
        store(after, words);
    }
}
