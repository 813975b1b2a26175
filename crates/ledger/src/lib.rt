// A ledger of cycles: ten totals, the tenant who is billed, and whether idle time runs. The rules are by value (`settle`); `post` is the one call that changes
// a ledger in place.
#![tactic(auto)]

ghost use Rattle.std.specs.Prelude.{◌≡◌};
ghost use Rattle.std.specs.Result.{result_err, result_unwrap_or};
ghost use Rattle.ledger.specs.Rules.{refusal_number, settled};

use steps::Step;

mod numbers;
mod rules;
mod words;

pub use numbers::{metered_numbers, numbers_of};
pub use words::{is_ledger, load, post_in, refusal_in, store};

// Totals of tenants 0 to 7, house and idle; the current tenant, which is refused if it is above 7; and whether idle time runs.
#[derive(Clone, Copy, Debug, PartialEq, Eq)]
pub struct Ledger {
    pub totals: [u64; 10],
    pub tenant: u64,
    pub idle: bool,
}

// A step with a ledger lent: one of the eighteen, or step 18, which names the tenant and exists nowhere else.
#[derive(Clone, Copy)]
pub enum MeteredStep {
    Step(Step),
    Tenant(u64, u64),
}

// Why a ledger refuses a step, with the number that 02 gives the refusal.
#[derive(Clone, Copy, Debug, PartialEq, Eq)]
pub enum Refusal {
    // 9: the current tenant is above 7, or step 18 names none.
    Tenant = 9,
    // 10: the account's total would pass 2^64-1.
    Total = 10,
}

impl From<Refusal> for u64 {
    ghost from_gives = { λ refusal number. number ≡ refusal_number refusal };

    fn from(refusal: Refusal) -> u64 {
        refusal as u64
    }
}

// What is posted: a step's number and arguments, the mode before it, and the first two numbers of its answer. They are numbers, and no enums, as 02's rules
// speak of the numbers, and answer for any.
#[derive(Clone, Copy, Debug, PartialEq, Eq)]
pub struct Posting {
    pub step: u64,
    pub a: u64,
    pub b: u64,
    pub mode: u64,
    pub kind: u64,
    pub value: u64,
}

impl Ledger {
    // A posting by value: the ledger after it.
    #[tactic(auto, using(crate::proofs::RuleLaws::taken_fits), unfolding(crate::specs::Rules::settled))]
    pub fn settle(self, posting: Posting) -> Result<Ledger, Refusal>
        ensures { result ≡ settled self posting }
    {
        let Posting {
            step,
            a,
            b,
            mode,
            kind,
            ..
        } = posting;
        if let Some(refusal) = self.refusal(step, a, b, mode) {
            return Err(refusal);
        }
        if kind == 5 {
            return Ok(self);
        }
        Ok(self.change(posting))
    }

    // The posting call: the ledger is lent, and changed in place; a refusal leaves it as it was. It takes the ledger apart for `settle`, as 01 asks.
    pub fn post(&mut self, posting: Posting) -> Result<(), Refusal>
        ensures refusal { result_err result ≡ result_err (settled self.old posting) }
        ensures ledger_after { self.new ≡ result_unwrap_or (settled self.old posting) self.old }
    {
        *self = self.settle(posting)?;
        Ok(())
    }

    // Lends a ledger that is had by value to `post`.
    pub fn post_own(self, posting: Posting) -> Result<Ledger, Refusal>
        ensures { result ≡ settled self posting }
    {
        let mut after = self;
        after.post(posting)?;
        Ok(after)
    }
}
