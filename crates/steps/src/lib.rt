// What a hart can be asked to do, and what it answers.
#![tactic(auto)]

use pmp::{Access, Refusal};

mod from_numbers;
mod numbers;

pub use from_numbers::{Numbers, decode, name_steps, names_access};
pub use numbers::refused_words;

// What a CSR step does. `Read` is no write attempt; the other three are, even with operand 0.
#[derive(Clone, Copy, Debug, PartialEq, Eq)]
pub enum Operation {
    Write,
    Set,
    Clear,
    Read,
}

// The steps that concern the registers alone, and none of protection.
#[derive(Clone, Copy, Debug, PartialEq, Eq)]
pub enum Event {
    Raise(u64, u64),
    Lines(u64),
    TakeInterrupt,
    Mret,
    Sret,
    Wfi,
    Ecall,
    Ebreak,
    Advance(u64),
    Elapsed(u64, u64),
}

// The eighteen steps in four families. A CSR step has its number and operand, an access its address and size; what a step does not name is
// ignored.
#[derive(Clone, Copy, Debug, PartialEq, Eq)]
pub enum Step {
    Reset,
    Csr(Operation, u64, u64),
    Access(Access, u64, u64),
    Event(Event),
}

// A level that traps are taken to, by the number of its mode.
#[derive(Clone, Copy, Debug, PartialEq, Eq)]
pub enum Level {
    Supervisor = 1,
    Machine = 3,
}

// What a trap is taken for: an exception's cause, or an interrupt's number.
#[derive(Clone, Copy, Debug, PartialEq, Eq)]
pub enum Trap {
    Exception(u64),
    Interrupt(u64),
}

// What a step answers. `DoneValue` is a CSR step's old value, `DoneFlag` a yes or no. A grant and a trap have the entry that decided on the access, and
// `pmp::NONE` where none did, as at a trap that comes from no access. The entry is a byte, so that it lies beside the level and makes no answer larger.
#[derive(Clone, Copy, Debug, PartialEq, Eq)]
pub enum Answer {
    Done,
    DoneValue(u64),
    DoneFlag(bool),
    Granted(u8),
    Trapped(Trap, Level, u8),
    Refused(Refusal),
}
