// What a write stores. Locks are judged before the write.
ghost use Rattle.std.specs.Prelude.{◌≡◌, ◌≤◌, ◌<◌};
ghost use Rattle.protection.specs.Hold.{na4_unselectable};
ghost use Rattle.protection.specs.Write.{config_written, configs_written, address_frozen, address_written, pmp_written};

use crate::Pmp;
use pmp::is_locked;

// Whether a byte has A=2 where no hart can hold that.
fn is_unselectable(grain: u64, cfg: u8) -> bool
    ensures { result ≡ na4_unselectable grain cfg }
{
    (cfg / 8 % 4 == 2) & (grain != 0)
}

// A configuration byte after a write: the lock before it decides, and the A that is written.
fn config_written(grain: u64, old: u8, value: u8) -> u8
    ensures { result ≡ config_written grain old value }
{
    if is_locked(old) | is_unselectable(grain, value) {
        return old;
    }
    if value % 2 == 0 {
        value & 0x9D
    } else {
        value & 0x9F
    }
}

// The eight bytes of one configuration register, each judged for itself.
fn configs_written(grain: u64, given: [u8; 16], first: usize, value: u64) -> [u8; 16]
    requires { first ≤ 8 }
    ensures { result ≡ configs_written grain 8 first value given }
{
    let mut cfgs = given;
    for (i, byte) in value.to_le_bytes().iter().enumerate() {
        cfgs[first + i] = config_written(grain, cfgs[first + i], *byte);
    }
    cfgs
}

// Whether entry i is locked, or the next one is locked with A=TOR. Entry 15 has no next.
fn is_address_frozen(cfgs: [u8; 16], i: usize) -> bool
    requires { i < 16 }
    ensures { result ≡ address_frozen cfgs i }
{
    let this = cfgs[i];
    let next = cfgs.get(i + 1).copied().unwrap_or(0);
    is_locked(this) | (is_locked(next) & (next / 8 % 4 == 1))
}

fn address_written(cfgs: [u8; 16], i: usize, old: u64, value: u64) -> u64
    requires { i < 16 }
    ensures { result ≡ address_written cfgs i old value }
{
    if is_address_frozen(cfgs, i) {
        old
    } else {
        value % 0x40000000000000
    }
}

// The registers after a write of any value to any number; a number that is not of protection changes nothing. The grain of 4 bytes is told apart, so that what is
// compiled for it has no test of A.
#[tactic(auto, unfolding(crate::specs::Write::pmp_written))]
pub fn write_register(pmp: Pmp, number: u64, value: u64) -> Pmp
    ensures { result ≡ pmp_written pmp number value }
{
    let grain = pmp.grain;
    let cfgs = pmp.cfgs;
    let mut w = pmp;
    match number {
        0x3A0 => {
            if grain == 0 {
                w.cfgs = configs_written(0, cfgs, 0, value);
                return w;
            }
            w.cfgs = configs_written(grain, cfgs, 0, value);
            w
        }
        0x3A2 => {
            if grain == 0 {
                w.cfgs = configs_written(0, cfgs, 8, value);
                return w;
            }
            w.cfgs = configs_written(grain, cfgs, 8, value);
            w
        }
        0x3B0..=0x3BF => {
            let entry = (number - 0x3B0) as usize;
            let old = w.addrs[entry];
            w.addrs[entry] = address_written(cfgs, entry, old, value);
            w
        }
        _ => w,
    }
}
