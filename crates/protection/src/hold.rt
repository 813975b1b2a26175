// What a hart can hold, and what reset gives.
ghost use Rattle.std.specs.Prelude.{◌≡◌, cond, eqb, replicate};
ghost use Rattle.bits.specs.Lists.{all};
ghost use Rattle.protection.specs.Configs.{packed, unpacked, configs_of};
ghost use Rattle.protection.specs.Hold.{config_holdable, address_holdable, reset_pmp};
ghost use Rattle.protection.specs.Same.{same_pmp};

use crate::Pmp;

// The bits of eight configuration bytes that must be 1 where the next higher bit is: R where W is 1; with G of 1 or more also A[0] where A[1] is 1, which leaves
// out A=2.
#[tactic(auto, unfolding(crate::specs::Configs::packed))]
fn set_by_next(grain: u64) -> u64
    ensures { result ≡ packed (replicate 8 (cond (eqb grain 0) 1 9)) }
{
    if grain == 0 {
        0x0101010101010101
    } else {
        0x0909090909090909
    }
}

// Eight configuration bytes at once: in each, bits 5 and 6 are 0, and no bit is 0 that must be 1.
fn word_can_hold(grain: u64, word: u64) -> bool
    ensures { result ≡ all (config_holdable grain) (unpacked 8 word) }
{
    let asked = (word >> 1) & set_by_next(grain);
    word & (asked | 0x6060606060606060) == asked
}

// Whether a hart can hold the configuration bytes in pmpcfg0 and pmpcfg2.
#[tactic(auto, using(bits::proofs::ListLaws::all_append), unfolding(crate::specs::Configs::configs_of))]
pub fn configs_can_hold(grain: u64, low: u64, high: u64) -> bool
    ensures { result ≡ all (config_holdable grain) (configs_of low high) }
{
    word_can_hold(grain, low) & word_can_hold(grain, high)
}

// Whether a hart can hold these address registers: no bit from 54 up is set in any of them.
pub fn addresses_can_hold(addrs: &[u64]) -> bool
    ensures { result ≡ all address_holdable addrs.now }
{
    let any = addrs.iter().fold(0, |any, addr| any | *addr);
    any < 0x40000000000000
}

// The registers of a hart that is made, or reset, with a grain.
pub fn reset(grain: u64) -> Pmp
    ensures { result ≡ reset_pmp grain }
{
    Pmp {
        grain: pmp::legal_grain(grain),
        cfgs: [0; 16],
        addrs: [0; 16],
    }
}

// Whether no byte and no address differs. It is not `==`, as the grain is left out.
pub fn same(a: Pmp, b: Pmp) -> bool
    ensures { result ≡ same_pmp a b }
{
    (a.cfgs == b.cfgs) & (a.addrs == b.addrs)
}
