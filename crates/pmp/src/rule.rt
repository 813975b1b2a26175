// What is decided of an access: by its kind and mode, by an entry, and by all entries.
ghost use Rattle.std.specs.Prelude.{◌≡◌, cond, ◌+◌, ◌≤◌, ◌<◌};
ghost use Rattle.pmp.specs.declared.Decision.TheVariants.{Fault};
ghost use Rattle.pmp.specs.Number.{fault_cause};
ghost use Rattle.pmp.specs.Search.{every_byte};
ghost use Rattle.pmp.specs.Entry.{top, entry_span, contains};
ghost use Rattle.pmp.specs.Rule.{permission, by_permission, entry_decides, none_decides, owner_decides, byte_rule, is_size, checked};

use crate::entry::is_locked;
use crate::search::{contains_all, lowest_match};
use crate::{Access, Decision, Found, Mode, NONE, Refusal, TOP};

// The exception's cause where an access faults.
pub fn fault_cause(access: Access) -> u64
    ensures { result ≡ fault_cause access }
{
    match access {
        Access::Fetch => 1,
        Access::Load => 5,
        Access::Store => 7,
    }
}

// The bit of a configuration byte that grants the access.
fn permission_bit(access: Access, cfg: u8) -> u8
    ensures { result ≡ permission access cfg }
{
    match access {
        Access::Fetch => cfg / 4 % 2,
        Access::Load => cfg % 2,
        Access::Store => cfg / 2 % 2,
    }
}

// What an entry decides by its permission bit.
fn permission_decides(access: Access, cfg: u8, entry: u8) -> Decision
    ensures { result ≡ by_permission access cfg entry }
{
    if permission_bit(access, cfg) == 1 {
        Decision::Granted(entry)
    } else {
        Decision::Fault(fault_cause(access), entry)
    }
}

// What an entry that matches every byte decides: unlocked it grants all in machine mode, and else its permission bits decide.
fn entry_decides(mode: Mode, access: Access, cfg: u8, entry: u8) -> Decision
    ensures { result ≡ entry_decides mode access cfg entry }
{
    match mode {
        Mode::User | Mode::Supervisor => permission_decides(access, cfg, entry),
        Mode::Machine => {
            if is_locked(cfg) {
                permission_decides(access, cfg, entry)
            } else {
                Decision::Granted(entry)
            }
        }
    }
}

// What is decided where no entry matches.
fn none_decides(mode: Mode, access: Access) -> Decision
    ensures { result ≡ none_decides mode access }
{
    match mode {
        Mode::User | Mode::Supervisor => Decision::Fault(fault_cause(access), NONE),
        Mode::Machine => Decision::Granted(NONE),
    }
}

// What an owner decides of an access whose bytes are all its own; an owner past the entries is none.
pub fn owner_decides(cfgs: [u8; 16], mode: Mode, access: Access, owner: u64) -> Decision
    ensures { result ≡ owner_decides cfgs mode access owner }
{
    if owner < 16 {
        let cfg = cfgs[owner as usize];
        entry_decides(mode, access, cfg, owner as u8)
    } else {
        none_decides(mode, access)
    }
}

// What the lowest entry that matches any byte decides: it must match all.
fn match_decides(lowest: Found, mode: Mode, access: Access, address: u64, size: u64) -> Decision
    requires { (0 < size) × (address + size ≤ top) }
    ensures { result ≡ cond (every_byte (contains lowest.span) size address) (entry_decides mode access lowest.cfg lowest.entry) (Fault (fault_cause access) lowest.entry) }
{
    if contains_all(lowest.span, address, size) {
        entry_decides(mode, access, lowest.cfg, lowest.entry)
    } else {
        Decision::Fault(fault_cause(access), lowest.entry)
    }
}

// Whether an access can have this size.
pub fn is_size(size: u64) -> bool
    ensures { result ≡ is_size size }
{
    matches!(size, 1 | 2 | 4 | 8)
}

// The decision of the entries on an access of any number of bytes from `address` on, in the effective mode. An access past the end of memory faults by no
// entry, and none decides on one of no bytes. The arrays are passed by value and apart, as 01 asks.
#[tactic(auto, using(crate::proofs::RuleLaws::rule_cases))]
pub fn byte_rule(
    grain: u64,
    cfgs: [u8; 16],
    addrs: [u64; 16],
    mode: Mode,
    access: Access,
    address: u64,
    size: u64,
) -> Decision
    ensures { result ≡ byte_rule (entry_span grain cfgs addrs) cfgs mode access address size }
{
    if size == 0 {
        return none_decides(mode, access);
    }
    if TOP < size {
        return Decision::Fault(fault_cause(access), NONE);
    }
    if TOP - size < address {
        return Decision::Fault(fault_cause(access), NONE);
    }
    match lowest_match(grain, cfgs, addrs, address, size) {
        Some(found) => match_decides(found, mode, access, address, size),
        None => none_decides(mode, access),
    }
}

// The same on an access of a size that a step can ask for, and refusal 1 on any other.
#[tactic(auto, unfolding(crate::specs::Rule::checked))]
pub fn check(
    grain: u64,
    cfgs: [u8; 16],
    addrs: [u64; 16],
    mode: Mode,
    access: Access,
    address: u64,
    size: u64,
) -> Decision
    ensures { result ≡ checked grain cfgs addrs mode access address size }
{
    if is_size(size) {
        byte_rule(grain, cfgs, addrs, mode, access, address, size)
    } else {
        Decision::Refused(Refusal::Size)
    }
}
