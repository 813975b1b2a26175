// What a step comes to in a ledger.
ghost use Rattle.std.specs.Prelude.{◌≡◌, ◌+◌, leb};
ghost use Rattle.ledger.specs.Rules.{new_ledger, account_of, names_tenant, refusal_by, Room, Fits, credited, changed};

use crate::{Ledger, Posting, Refusal};

// Whether a total takes the cycles without passing 2^64-1.
fn fits(total: u64, cycles: u64) -> bool
    ensures { result ≡ leb (total + cycles) 18446744073709551615 }
{
    cycles <= 18446744073709551615 - total
}

fn names_tenant(a: u64, b: u64) -> bool
    ensures { result ≡ names_tenant a b }
{
    (a <= 7) & (b == 0)
}

impl Ledger {
    pub fn new() -> Ledger
        ensures { result ≡ new_ledger }
    {
        Ledger {
            totals: [0u64; 10],
            tenant: 0,
            idle: false,
        }
    }

    // The account that an elapsed step's cycles go to.
    fn account(self, mode: u64) -> u64
        ensures { result ≡ account_of self mode }
    {
        if self.idle {
            return 9;
        }
        if mode == 3 { 8 } else { self.tenant }
    }

    // The refusal of a step by a ledger, 9 before 10, if it refuses the step. It is judged before the step has an answer to post.
    #[tactic(auto, using(crate::proofs::RuleLaws::account_below), unfolding(crate::specs::Rules::refusal_by))]
    pub fn refusal(self, step: u64, a: u64, b: u64, mode: u64) -> Option<Refusal>
        ensures { result ≡ refusal_by self step a b mode }
    {
        if step == 0 {
            return None;
        }
        if 7 < self.tenant {
            return Some(Refusal::Tenant);
        }
        if step == 18 {
            return if names_tenant(a, b) {
                None
            } else {
                Some(Refusal::Tenant)
            };
        }
        if step != 17 {
            return None;
        }
        let i = self.account(mode) as usize;
        if fits(self.totals[i], a) {
            None
        } else {
            Some(Refusal::Total)
        }
    }

    // The cycles go, whole, to an account.
    fn credit(self, account: u64, cycles: u64) -> Ledger
        requires { Room self account cycles }
        ensures { result ≡ credited self account cycles }
    {
        let i = account as usize;
        let mut next = self;
        next.totals[i] = self.totals[i] + cycles;
        next
    }

    // What an accepted step makes of the ledger.
    #[tactic(auto, unfolding(crate::specs::Rules::changed))]
    pub(crate) fn change(self, posting: Posting) -> Ledger
        requires { Fits self posting.step posting.a posting.mode }
        ensures { result ≡ changed self posting.step posting.a posting.mode posting.kind posting.value }
    {
        match posting.step {
            0 => Ledger {
                tenant: 0,
                idle: false,
                ..self
            },
            6 => self,
            7 if posting.kind == 2 && posting.value == 0 => self,
            10 => Ledger {
                idle: posting.kind == 2,
                ..self
            },
            17 => self.credit(self.account(posting.mode), posting.a),
            18 => Ledger {
                tenant: posting.a,
                ..self
            },
            _ => Ledger {
                idle: false,
                ..self
            },
        }
    }
}
