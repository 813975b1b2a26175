// Sv39: virtual addresses under the protection rule.
#![tactic(auto)]

mod access;
mod entry;
mod lent;
mod satp;
mod walk;

pub use access::{is_translated, reach};
use pmp::{Access, Mode, Refusal};
pub use satp::{satp_can_hold, satp_written};

// The lent memory: its words, and the physical address of the first.
#[derive(Clone, Copy)]
pub struct Memory<'a> {
    pub words: &'a [u64],
    pub base: u64,
}

// What an access asks by, which stays the same through its walk.
#[derive(Clone, Copy)]
pub struct Context {
    pub satp: u64,
    pub mstatus: u64,
    pub mode: Mode,
    pub access: Access,
}

// Why an access is not granted: a fault with its cause, trap value and deciding entry; or a refusal. Entry 16 is none.
#[derive(Clone, Copy)]
pub enum NotGranted {
    Fault(u64, u64, u8),
    Refused(Refusal),
}

// What an entry of a page table says: the next table, or the physical address in a page.
#[derive(Clone, Copy)]
pub(crate) enum Found {
    Table(u64),
    Page(u64),
}

// Why a walk reaches no physical address: a page fault, or a word of a page table that could not be read, with the entry that denied it.
#[derive(Clone, Copy)]
pub(crate) enum WalkFault {
    Page,
    Denied(u8),
}

// What the byte rule is asked.
#[derive(Clone, Copy)]
pub(crate) struct Check {
    pub(crate) mode: Mode,
    pub(crate) access: Access,
    pub(crate) place: u64,
    pub(crate) size: u64,
}
