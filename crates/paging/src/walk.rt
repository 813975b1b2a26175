// The walk through the page tables, check by check.
ghost use Rattle.std.specs.Prelude.{◌≡◌, ◌<◌, ◌≤◌};
ghost use Rattle.paging.specs.Memory.{memory_of, word_at};
ghost use Rattle.paging.specs.Walk.{canonical, entry_address, word_says, asked, next_check};

use crate::entry::{PAGE_NUMBERS, entry_says, pages_below};
use crate::{Check, Context, Found, Memory, WalkFault};
use pmp::{Access, Mode};

pub(crate) fn is_canonical(address: u64) -> bool
    ensures { result ≡ canonical address }
{
    (address >> 38 == 0) | (address >> 38 == 0x3FFFFFF)
}

// The physical address of an entry of a table.
fn entry_address(table: u64, level: u64, address: u64) -> u64
    requires { level < 3 }
    ensures { result ≡ entry_address table level address }
{
    table % PAGE_NUMBERS * 4096 + address / (4096 * pages_below(level)) % 512 * 8
}

fn asking(mode: Mode, access: Access, place: u64, size: u64) -> Check
    ensures { result ≡ asked mode access place size }
{
    Check {
        mode,
        access,
        place,
        size,
    }
}

// The next check where so many levels are left: of the read of an entry in the table `place`, with mode S, or of the access itself at the physical address `place`.
pub(crate) fn next_check(
    context: Context,
    address: u64,
    size: u64,
    levels: u64,
    place: u64,
) -> Check
    requires { levels ≤ 3 }
    ensures { result ≡ next_check context address size levels place }
{
    if levels == 0 {
        let mode = context.mode;
        let access = context.access;
        asking(mode, access, place, size)
    } else {
        let entry = entry_address(place, levels - 1, address);
        asking(Mode::Supervisor, Access::Load, entry, 8)
    }
}

// What the entry at a physical address says.
pub(crate) fn word_says(
    memory: Memory<'_>,
    context: Context,
    address: u64,
    level: u64,
    place: u64,
) -> Result<Found, WalkFault>
    requires { level < 3 }
    ensures { result ≡ word_says context address level (word_at (memory_of memory.entry) place) }
{
    let pte = memory.word_at(place)?;
    entry_says(context, address, level, pte)
}
