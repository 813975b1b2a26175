// The registers of a hart but those of protection, each as a raw number: a value that no hart can hold can be given, and is refused.
#![tactic(auto)]

mod effective;
pub mod fields;
mod hold;
mod level;
pub mod masks;
mod status;

pub use effective::effective_mode;
pub use hold::{registers_can_hold, reset_registers};
pub use level::{level_registers, with_level_registers};
pub use status::{pending_interrupts, previous_mode};

// The trap registers, which both levels have: mtvec and stvec, mcounteren and scounteren, and so on.
#[derive(Clone, Copy, PartialEq, Eq, Debug)]
pub struct LevelRegisters {
    pub tvec: u64,
    pub counteren: u64,
    pub scratch: u64,
    pub epc: u64,
    pub cause: u64,
    pub tval: u64,
}

// `mip` holds the software bits only; `lines` are the interrupt lines from outside.
#[derive(Clone, Copy, PartialEq, Eq, Debug)]
pub struct Interrupts {
    pub mideleg: u64,
    pub mie: u64,
    pub mip: u64,
    pub lines: u64,
}

#[derive(Clone, Copy, PartialEq, Eq, Debug)]
pub struct Counters {
    pub mcountinhibit: u64,
    pub mcycle: u64,
    pub minstret: u64,
}

// The mode is a number, and no `pmp::Mode`: a state that no hart can hold can be given (its mode may be 2), and `registers_can_hold` refuses it.
#[derive(Clone, Copy, PartialEq, Eq, Debug)]
pub struct Registers {
    pub mode: u64,
    pub pc: u64,
    pub mstatus: u64,
    pub medeleg: u64,
    pub interrupts: Interrupts,
    pub counters: Counters,
    pub machine: LevelRegisters,
    pub supervisor: LevelRegisters,
}
