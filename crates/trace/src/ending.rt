// What is written behind the lines of the records.
ghost use Rattle.std.specs.Prelude.{◌+◌, ◌≤◌, length};
ghost use Rattle.map.specs.Lookup.{ranges_in};
ghost use Rattle.trace.specs.Buffers.{Put};
ghost use Rattle.trace.specs.Endings.{owner_text, range_line, range_lines, ending};

use crate::saved::put_state;
use crate::writer::{put, put_decimal, put_numbered, put_word};
use hart::Hart;
use map::{Map, Range};

#[tactic(auto, using(crate::proofs::Writing::parts), unfolding(crate::specs::Endings::owner_text, lines::specs::Lines::bytes_of))]
fn put_owner(owner: u64, out: &mut [u8], place: usize) -> usize
    requires { place + 20 ≤ length out.old }
    ensures { Put out.old place (owner_text owner) out.new result }
{
    if owner == 16 {
        put(b"none", out, place)
    } else {
        put_decimal(owner, out, place)
    }
}

#[tactic(auto, using(crate::proofs::Endings::lengths), unfolding(crate::specs::Endings::range_line, lines::specs::Lines::bytes_of))]
fn put_range(range: Range, out: &mut [u8], place: usize) -> usize
    requires { place + 64 ≤ length out.old }
    ensures { Put out.old place (range_line range) out.new result }
{
    let mut next = put_word(b"range ", range.first, out, place);
    next = put_word(b" ", range.last, out, next);
    next = put(b" ", out, next);
    next = put_owner(range.owner, out, next);
    put(b"\n", out, next)
}

fn put_ranges(map: Map, out: &mut [u8], place: usize) -> usize
    requires { place + 2112 ≤ length out.old }
    ensures { Put out.old place (range_lines (ranges_in map)) out.new result }
{
    let n = map::count_read(map.count);
    let mut next = place;
    for range in &map.ranges[..n] {
        next = put_range(*range, out, next);
    }
    next
}

// The saved text of the end state, the ranges of the map and the bytes left over.
#[tactic(auto, using(crate::proofs::Endings::lengths), unfolding(crate::specs::Endings::ending, lines::specs::Lines::bytes_of))]
pub(crate) fn put_ending(hart: Hart, map: Map, left: u64, out: &mut [u8]) -> usize
    requires { 4096 ≤ length out.old }
    ensures { Put out.old 0 (ending hart map left) out.new result }
{
    let mut next = put_state(hart, out);
    next = put_ranges(map, out, next);
    put_numbered(b"left ", left, out, next)
}
