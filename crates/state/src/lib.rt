// All registers of a hart, and the 43 words in which they lie.
#![tactic(auto)]

use protection::Pmp;
use registers::Registers;

mod hold;
pub mod places;
mod texts;
mod words;

pub use hold::{can_hold, reset, words_can_hold};
pub use texts::first_form_holds;
pub use words::{
    load, load_pmp, load_registers, load_satp, store, store_pmp, store_registers, store_satp,
};

// Every register as a raw number: it can hold what no hart can, and is then refused.
#[derive(Clone, Copy, PartialEq, Eq, Debug)]
pub struct State {
    pub registers: Registers,
    pub pmp: Pmp,
    pub satp: u64,
}
