// Physical memory protection: what the sixteen entries say of an access, byte by byte.
#![tactic(auto)]

ghost use Rattle.std.specs.Prelude.{◌≡◌};
ghost use Rattle.pmp.specs.Number.{refusal_number};

mod entry;
mod modes;
mod rule;
mod search;

pub use entry::{address_read, entry_span, grain_can_hold, is_locked, legal_grain};
pub use modes::{UnknownMode, mode_of};
pub use rule::{byte_rule, check, fault_cause, is_size, owner_decides};

// A privilege mode, of the hart or in effect for an access.
#[derive(Clone, Copy, Debug, PartialEq, Eq)]
pub enum Mode {
    User,
    Supervisor,
    Machine,
}

// What an access does with its bytes.
#[derive(Clone, Copy, Debug, PartialEq, Eq)]
pub enum Access {
    Fetch,
    Load,
    Store,
}

// What is decided of an access: it is granted by an entry, or faults with an exception's cause by an entry, or the call is refused.
// An entry is 0 to 15, or 16 where none decided.
#[derive(Clone, Copy, Debug, PartialEq, Eq)]
pub enum Decision {
    Granted(u8),
    Fault(u64, u8),
    Refused(Refusal),
}

// Why a call is refused, with the number that 01 and 02 give the refusal. Those between 8 and 12 are none of a hart's.
#[derive(Clone, Copy, PartialEq, Eq, Debug)]
pub enum Refusal {
    // 1: the size of an access is not 1, 2, 4 or 8.
    Size = 1,
    // 2: a CSR number above 4095, the cause of a raise above 7, or lines outside 0xA88.
    Argument,
    // 3: no hart can hold the state.
    State,
    // 4: the text is not in the form.
    Text,
    // 5: no hart can hold the state of the text, or the form has no place for it.
    TextState,
    // 6: the buffer is shorter than the form.
    Buffer,
    // 7: of some byte the map has no range, or no owner that is an entry or none.
    Map,
    // 8: a record of a trace is broken.
    Record,
    // 12: the form has no place for the state.
    Form = 12,
    // 13: the lent memory cannot stand at its address.
    Memory,
}

impl From<Refusal> for u64 {
    ghost from_gives = { λ refusal number. number ≡ refusal_number refusal };

    fn from(refusal: Refusal) -> u64 {
        refusal as u64
    }
}

// The bytes from `low` up to but not including `high`.
#[derive(Clone, Copy, Debug, PartialEq, Eq)]
pub struct Span {
    pub low: u64,
    pub high: u64,
}

// The entry that a search yields, with its configuration byte and the bytes that it matches.
#[derive(Clone, Copy)]
pub(crate) struct Found {
    entry: u8,
    cfg: u8,
    span: Span,
}

// 2^56: the first byte past physical memory.
pub const TOP: u64 = 0x100000000000000;

// What stands for an entry where none decides. It is a number and no None: the lowest owner of an access's bytes is their minimum, with none above every entry,
// and C is told 16.
pub const NONE: u8 = 16;
