// The sixth mix: accesses in U and S through page tables. All but one are granted.
ghost use Rattle.std.specs.Prelude.{◌<◌};

use crate::mixes::{fetch, load, store, write};
use steps::{Event, Step};

// The physical address of the tables' first word.
pub(crate) const TABLES: u64 = 0x80000000;

// V R W X U A D.
const USER_PAGE: u64 = 0xDF;

// The root, a table of level 1 and one of level 0: two pointers, a page of 1 GiB, one of 2 MiB and 512 of 4 KiB, of which the first can only be read and the
// second is one of S.
pub(crate) fn tables() -> [u64; 1536] {
    let mut words = [0u64; 1536];
    words[0] = 0x20000401;
    words[1] = 0x10000000 | USER_PAGE;
    words[512] = 0x20000801;
    words[513] = 0x24080000 | USER_PAGE;
    for page in 0..512usize {
        words[1024 + page] = (((0x90000 + page) as u64) << 10) | USER_PAGE;
    }
    words[1024] = 0x24000053;
    words[1025] = 0x240004CF;
    words
}

// From reset, eleven steps: entries for the tables, which can only be read, and for the pages of each size; then to U, with SUM.
pub(crate) fn translated_settings() -> [Step; 11] {
    [
        write(0x3B0, 0x200007FF),
        write(0x3B1, 0x2403FFFF),
        write(0x3B2, 0x240BFFFF),
        write(0x3B3, 0x17FFFFFF),
        write(0x3A0, 0x1F1F1F19),
        write(0x302, 0xB000),
        write(0x105, 0x1000),
        write(0x341, 0x2000),
        write(0x180, 0x8000000000080000),
        write(0x300, 0x40000),
        Step::Event(Event::Mret),
    ]
}

// An access to a page of 4 KiB.
fn small_page_step(turn: u64, page: u64) -> Step
    requires { (turn < 1024) × (page < 0x200000) }
{
    let address = page + 8 * turn % 4096;
    let size: u64 = match turn % 4 {
        0 => 1,
        1 => 2,
        2 => 4,
        _ => 8,
    };
    match turn % 8 {
        3 | 6 => store(address, size),
        _ => load(address, size),
    }
}

fn page_step(turn: u64) -> Step
    requires { turn < 1024 }
{
    let page = 4096 * (2 + 37 * turn % 508);
    if turn % 64 == 33 {
        return load(page + 0xFFC, 8);
    }
    match turn % 16 {
        7 => load(0x200000 + 0x1238 * turn % 0x200000, 8),
        15 => load(0x40000000 + 0x100238 * turn % 0x40000000, 8),
        _ => small_page_step(turn, page),
    }
}

// 1,024 steps over and over: the page fault leads from U to S, and SRET back. One access in 64 crosses a boundary.
pub(crate) fn translated_step(place: u64) -> Step {
    let turn = place % 1024;
    if turn == 511 {
        return store(0x10, 8);
    }
    if turn == 1023 {
        return Step::Event(Event::Sret);
    }
    if turn % 8 == 0 {
        return fetch();
    }
    page_step(turn)
}
