// What an access comes to.
ghost use Rattle.std.specs.Prelude.{◌≡◌, ◌≤◌};
ghost use Rattle.paging.specs.Memory.{memory_of};
ghost use Rattle.paging.specs.Access.{page_fault_cause, translated, faulted, first_part, part_reached, parts_reached, reached};

use crate::walk::{is_canonical, next_check, word_says};
use crate::{Context, Found, Memory, NotGranted, WalkFault};
use pmp::{Access, Decision, Mode, NONE, Refusal};
use protection::Pmp;

fn page_fault_cause(access: Access) -> u64
    ensures { result ≡ page_fault_cause access }
{
    match access {
        Access::Fetch => 12,
        Access::Load => 13,
        Access::Store => 15,
    }
}

// Whether an access goes by the page tables.
pub fn is_translated(context: Context) -> bool
    ensures { result ≡ translated context }
{
    match context.mode {
        Mode::User | Mode::Supervisor => context.satp >> 60 == 8,
        Mode::Machine => false,
    }
}

// The fault of an access whose walk ends in one. The trap value is the virtual address.
fn fault(access: Access, address: u64, walk: WalkFault) -> NotGranted
    ensures { result ≡ faulted access address walk }
{
    match walk {
        WalkFault::Page => NotGranted::Fault(page_fault_cause(access), address, NONE),
        WalkFault::Denied(entry) => NotGranted::Fault(pmp::fault_cause(access), address, entry),
    }
}

// An access that crosses no boundary, of any number of bytes: one check after the other, those of the table reads from level 2 down and then that of the access
// itself. All are made at one place, so that the byte rule is compiled once, in line. The levels are counted by hand, as a page ends the walk at any of them.
fn reach_part(
    pmp: Pmp,
    memory: Memory<'_>,
    context: Context,
    address: u64,
    size: u64,
) -> Result<u8, NotGranted>
    ensures { result ≡ part_reached pmp (memory_of memory.entry) context address size }
{
    let access = context.access;
    let grain = pmp.grain;
    let cfgs = pmp.cfgs;
    let addrs = pmp.addrs;
    let mut levels: u64 = 0;
    let mut place = address;
    if is_translated(context) {
        if !is_canonical(address) {
            return Err(fault(access, address, WalkFault::Page));
        }
        levels = 3;
        place = context.satp;
    }
    loop {
        let check = next_check(context, address, size, levels, place);
        let check_mode = check.mode;
        let check_access = check.access;
        match pmp::byte_rule(
            grain,
            cfgs,
            addrs,
            check_mode,
            check_access,
            check.place,
            check.size,
        ) {
            Decision::Granted(entry) => {
                if levels == 0 {
                    return Ok(entry);
                }
                levels -= 1;
                match word_says(memory, context, address, levels, check.place) {
                    Ok(Found::Table(next)) => {
                        if levels == 0 {
                            return Err(fault(access, address, WalkFault::Page));
                        }
                        place = next;
                    }
                    Ok(Found::Page(physical)) => {
                        levels = 0;
                        place = physical;
                    }
                    Err(walk) => return Err(fault(access, address, walk)),
                }
            }
            Decision::Fault(_, entry) => {
                return Err(fault(access, address, WalkFault::Denied(entry)));
            }
            Decision::Refused(_) => {
                return Err(fault(access, address, WalkFault::Denied(NONE)));
            }
        }
    }
}

// The bytes of an access before the next boundary of 4,096; one that is not translated heeds none.
fn first_part(context: Context, address: u64, size: u64) -> u64
    ensures value { result ≡ first_part context address size }
    ensures upper_bound { result ≤ size }
{
    let room = 4096 - address % 4096;
    if is_translated(context) & (room < size) {
        room
    } else {
        size
    }
}

// An access in its parts, of which the first has so many bytes: the first fault wins. There are two parts at most, in a loop, so that `reach_part` is
// compiled once, in line.
fn reach_parts(
    pmp: Pmp,
    memory: Memory<'_>,
    context: Context,
    first: u64,
    address: u64,
    size: u64,
) -> Result<u8, NotGranted>
    requires { first ≤ size }
    ensures { result ≡ parts_reached pmp (memory_of memory.entry) context first address size }
{
    let mut part = first;
    let mut start = address;
    let mut left = size;
    loop {
        let entry = reach_part(pmp, memory, context, start, part)?;
        if part == left {
            return Ok(entry);
        }
        start = start.wrapping_add(part);
        left = left - part;
        part = left;
    }
}

// An access by page tables in the lent memory: refusals 13 and 1, then what it comes to, which is the entry that grants it or why it is not granted.
#[tactic(auto, unfolding(crate::specs::Access::reached))]
pub fn reach(
    pmp: Pmp,
    memory: Memory<'_>,
    context: Context,
    address: u64,
    size: u64,
) -> Result<u8, NotGranted>
    ensures { result ≡ reached pmp (memory_of memory.entry) context address size }
{
    if !memory.is_lawful() {
        return Err(NotGranted::Refused(Refusal::Memory));
    }
    if !pmp::is_size(size) {
        return Err(NotGranted::Refused(Refusal::Size));
    }
    let first = first_part(context, address, size);
    reach_parts(pmp, memory, context, first, address, size)
}
