// What a read gives.
ghost use Rattle.std.specs.Prelude.{◌≡◌};
ghost use Rattle.protection.specs.Read.{is_pmp, pmp_read};

use crate::Pmp;
use crate::configs::{pmpcfg0, pmpcfg2};

// Whether a number is that of a protection register.
pub fn is_pmp(number: u64) -> bool
    ensures { result ≡ is_pmp number }
{
    (number == 0x3A0) | ((number == 0x3A2) | ((0x3B0 <= number) & (number <= 0x3BF)))
}

// The value of the register with this number, and 0 where there is none.
pub fn read_register(pmp: Pmp, number: u64) -> u64
    ensures { result ≡ pmp_read pmp number }
{
    let cfgs = pmp.cfgs;
    let addrs = pmp.addrs;
    match number {
        0x3A0 => pmpcfg0(cfgs),
        0x3A2 => pmpcfg2(cfgs),
        0x3B0..=0x3BF => {
            let entry = (number - 0x3B0) as usize;
            pmp::address_read(pmp.grain, cfgs[entry], addrs[entry])
        }
        _ => 0,
    }
}
