// What one entry of a page table (PTE) says.
ghost use Rattle.std.specs.Prelude.{◌≡◌, ◌<◌, ◌≤◌};
ghost use Rattle.paging.specs.Entry.{ppn, well_formed, leaf, permits, sum_allows, usable, marked, pages, leaf_says, entry_says};

use crate::{Context, Found, WalkFault};
use pmp::{Access, Mode};
use registers::fields::{MXR, SUM};

// The flags, each 1 where `pte / FLAG % 2 == 1`: valid, readable, writable, executable, user, accessed, dirty.
const V: u64 = 0x1;

const R: u64 = 0x2;

const W: u64 = 0x4;

const X: u64 = 0x8;

const U: u64 = 0x10;

const A: u64 = 0x40;

const D: u64 = 0x80;

// The page numbers: 2^44.
pub(crate) const PAGE_NUMBERS: u64 = 0x100000000000;

fn page(pte: u64) -> u64
    ensures { result ≡ ppn pte }
{
    (pte >> 10) % PAGE_NUMBERS
}

fn is_well_formed(pte: u64) -> bool
    ensures { result ≡ well_formed pte }
{
    (pte / V % 2 == 1) & (((pte / R % 2 == 1) | !(pte / W % 2 == 1)) & (pte >> 54 == 0))
}

fn is_leaf(pte: u64) -> bool
    ensures { result ≡ leaf pte }
{
    (pte / R % 2 == 1) | (pte / X % 2 == 1)
}

fn is_permitted(access: Access, mstatus: u64, pte: u64) -> bool
    ensures { result ≡ permits access mstatus pte }
{
    match access {
        Access::Fetch => pte / X % 2 == 1,
        Access::Load => (pte / R % 2 == 1) | ((mstatus / MXR % 2 == 1) & (pte / X % 2 == 1)),
        Access::Store => pte / W % 2 == 1,
    }
}

// Whether SUM lets S use a U page for the access.
fn sum_allows(access: Access, mstatus: u64) -> bool
    ensures { result ≡ sum_allows access mstatus }
{
    match access {
        Access::Fetch => false,
        Access::Load | Access::Store => mstatus / SUM % 2 == 1,
    }
}

fn is_usable(mode: Mode, access: Access, mstatus: u64, pte: u64) -> bool
    ensures { result ≡ usable mode access mstatus pte }
{
    match mode {
        Mode::User => pte / U % 2 == 1,
        Mode::Supervisor => !(pte / U % 2 == 1) | sum_allows(access, mstatus),
        Mode::Machine => true,
    }
}

fn is_marked(access: Access, pte: u64) -> bool
    ensures { result ≡ marked access pte }
{
    match access {
        Access::Fetch | Access::Load => pte / A % 2 == 1,
        Access::Store => (pte / A % 2 == 1) & (pte / D % 2 == 1),
    }
}

// The pages below an entry of a level.
pub(crate) fn pages_below(level: u64) -> u64
    requires { level < 3 }
    ensures value { result ≡ pages level }
    ensures some { 0 < result }
    ensures upper_bound { result ≤ 0x40000 }
{
    match level {
        0 => 1,
        1 => 0x200,
        _ => 0x40000,
    }
}

fn leaf_says(context: Context, address: u64, level: u64, pte: u64) -> Result<Found, WalkFault>
    requires { level < 3 }
    ensures { result ≡ leaf_says context address level pte }
{
    let mode = context.mode;
    let access = context.access;
    let mstatus = context.mstatus;
    let below = pages_below(level);
    let number = page(pte);
    if is_permitted(access, mstatus, pte)
        & (is_usable(mode, access, mstatus, pte)
            & ((number % below == 0) & is_marked(access, pte)))
    {
        Ok(Found::Page(number * 4096 + address % (4096 * below)))
    } else {
        Err(WalkFault::Page)
    }
}

#[tactic(auto, unfolding(crate::specs::Entry::entry_says))]
pub(crate) fn entry_says(
    context: Context,
    address: u64,
    level: u64,
    pte: u64,
) -> Result<Found, WalkFault>
    requires { level < 3 }
    ensures { result ≡ entry_says context address level pte }
{
    if !is_well_formed(pte) {
        Err(WalkFault::Page)
    } else if is_leaf(pte) {
        leaf_says(context, address, level, pte)
    } else if (pte / U % 2 == 1) | ((pte / A % 2 == 1) | (pte / D % 2 == 1)) {
        Err(WalkFault::Page)
    } else {
        Ok(Found::Table(page(pte)))
    }
}
