// Whole records, one behind the other: the only loop over records.
ghost use Rattle.std.specs.Prelude.{◌≡◌, ◌+◌, ◌*◌, ◌≤◌, length, drop};
ghost use Rattle.paging.specs.Memory.{memory_of};
ghost use Rattle.state.specs.Hold.{can_hold};
ghost use Rattle.state.specs.Words.{state_of};
ghost use Rattle.trace.specs.Batches.{records_of, Batch};

use crate::Cursor;
use crate::replies::Output;
use paging::Memory;

// Steps through `count` records that begin at a place, each with the memory lent to it, and writes what is given out for each. The steps are taken on the
// words of the hart, and no map is read.
pub(crate) fn batch<O: Output>(
    words: &mut [u64; 43],
    memory: Memory<'_>,
    bytes: &[u8],
    place: usize,
    count: usize,
    out: &mut [O],
    start: Cursor,
) -> Cursor
    requires count_in_bounds { place + 60 * count ≤ length bytes.now }
    requires count_in_bounds_2 { start.filled + O.width * count ≤ length out.old }
    requires held_value { start.held ≡ can_hold (state_of words.old) }
    ensures batch { Batch (memory_of memory.entry) O.text (records_of count (drop place bytes.now)) start words.old out.old result words.new out.new }
    ensures held_value_2 { result.held ≡ can_hold (state_of words.new) }
{
    let mut cursor = start;
    if cursor.stopped {
        return cursor;
    }
    let mut at = place;
    for _ in 0..count {
        let next = scrap::read(bytes, at);
        let Some(numbers) = next.numbers else {
            cursor.filled = O::put_broken(cursor.number, out, cursor.filled);
            cursor.stopped = true;
            return cursor;
        };
        let left = O::put_step(words, memory, cursor.held, numbers, out, cursor.filled);
        cursor.held = left.told.held;
        cursor.remap |= left.told.remap;
        cursor.filled = left.filled;
        cursor.number = cursor.number.wrapping_add(1);
        at = next.at;
    }
    cursor
}
