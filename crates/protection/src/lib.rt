// The protection registers: their bytes and words, what a hart can hold of them, reads, locks and writes.
#![tactic(auto)]

mod configs;
mod hold;
mod read;
mod write;

pub use configs::{configs_of, pmpcfg0, pmpcfg2};
pub use hold::{addresses_can_hold, configs_can_hold, reset, same};
pub use read::{is_pmp, read_register};
pub use write::write_register;

// A configuration byte and an address register for each entry, and the grain. It comes last, so that the arrays lie at multiples of sixteen bytes.
#[derive(Clone, Copy, PartialEq, Eq, Debug)]
pub struct Pmp {
    pub cfgs: [u8; 16],
    pub addrs: [u64; 16],
    pub grain: u64,
}
