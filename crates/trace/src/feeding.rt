// Feeding a reader a scrap: the record that the carried bytes begin, the whole records behind it, and the bytes short of one at the end.
ghost use Rattle.std.specs.Prelude.{◌≡◌, ◌+◌, ◌*◌, ◌≤◌, min, ◌++◌, length};
ghost use Rattle.std.proofs.lemmas.List.Edits.{sets};
ghost use Rattle.state.specs.Words.{state_of};
ghost use Rattle.paging.specs.Memory.{memory_of};
ghost use Rattle.trace.specs.Feeding.{Feeds};
ghost use Rattle.state.specs.Hold.{can_hold};
ghost use Rattle.trace.specs.Batches.{Batch};
ghost use Rattle.trace.specs.Parts.{opening_of, opened_texts, wholes_in, further_in, closed, remade};

use crate::batch::batch;
use crate::replies::Output;
use crate::writer::put;
use crate::{Cursor, Opening, Progress, Reader};
use hart::{Hart, Mapped};
use map::Map;
use paging::Memory;
use state::State;

pub(crate) fn capped(count: u64) -> usize
    ensures { result ≡ min count 59 }
{
    count.min(59) as usize
}

// Writes one text behind the other, from the front of a buffer on.
fn join(front: &[u8], back: &[u8], out: &mut [u8])
    requires { length front.now + length back.now ≤ length out.old }
    ensures { out.new ≡ sets out.old 0 (front.now ++ back.now) }
{
    let next = put(front, out, 0);
    put(back, out, next);
}

fn open(carried: [u8; 59], count: usize, scrap: &[u8], room: usize) -> Opening
    requires { count ≤ 59 }
    ensures { result ≡ opening_of carried count scrap.now room }
{
    let missing = 60 - count;
    if (count == 0) | ((room == 0) | (scrap.len() < missing)) {
        return Opening {
            first: None,
            room,
            at: 0,
            kept: count,
        };
    }
    let mut text = [0u8; 60];
    join(&carried[0..count], &scrap[0..missing], &mut text);
    Opening {
        first: Some(text),
        room: room - 1,
        at: missing,
        kept: 0,
    }
}

// How many whole records follow that there is room for; none while bytes are still carried.
fn wholes(room: usize, rest: usize, kept: usize) -> usize
    ensures { result ≡ wholes_in room rest kept }
{
    if kept != 0 {
        return 0;
    }
    (rest / 60).min(room)
}

// How many bytes behind the last record are taken: the 60th of a record would need an answer.
fn further(rest: usize, kept: usize) -> usize
    requires { kept ≤ 59 }
    ensures { result ≡ further_in rest kept }
{
    (59 - kept).min(rest)
}

// What is left behind the last record. After a broken one every byte is taken, and none is carried.
fn close(carried: [u8; 59], kept: usize, scrap: &[u8], end: usize, last: Cursor) -> Progress
    requires { (kept ≤ 59) × (end ≤ length scrap.now) }
    ensures { result ≡ closed carried kept scrap.now end last }
{
    let mut next = [0u8; 59];
    if last.stopped {
        return Progress {
            reader: Reader {
                carried: next,
                count: 0,
                number: last.number,
                stopped: true,
            },
            taken: scrap.len(),
            filled: last.filled,
            remap: last.remap,
        };
    }
    let more = further(scrap.len() - end, kept);
    let taken = end + more;
    join(&carried[0..kept], &scrap[end..taken], &mut next);
    Progress {
        reader: Reader {
            carried: next,
            count: (kept + more) as u64,
            number: last.number,
            stopped: false,
        },
        taken,
        filled: last.filled,
        remap: last.remap,
    }
}

// Steps through the record that an opening has, if any.
fn read_first<O: Output>(
    words: &mut [u64; 43],
    memory: Memory<'_>,
    first: Option<[u8; 60]>,
    out: &mut [O],
    start: Cursor,
) -> Cursor
    requires count_in_bounds { start.filled + O.width * length (opened_texts first) ≤ length out.old }
    requires held_value { start.held ≡ can_hold (state_of words.old) }
    ensures batch { Batch (memory_of memory.entry) O.text (opened_texts first) start words.old out.old result words.new out.new }
    ensures held_value_2 { result.held ≡ can_hold (state_of words.new) }
{
    match first {
        Some(text) => batch(words, memory, &text, 0, 1, out, start),
        None => start,
    }
}

// Feeds a scrap to a reader, on the words of its hart, with room for a number of answers.
pub(crate) fn read<O: Output>(
    reader: Reader,
    words: &mut [u64; 43],
    memory: Memory<'_>,
    scrap: &[u8],
    room: usize,
    out: &mut [O],
) -> Progress
    requires { O.width * room ≤ length out.old }
    ensures feeds { Feeds (memory_of memory.entry) O.text reader room scrap.now words.old out.old result words.new out.new }
{
    let carried = reader.carried;
    let count = capped(reader.count);
    let opening = open(carried, count, scrap, room);
    let at = opening.at;
    let kept = opening.kept;
    let start = Cursor {
        held: state::words_can_hold(words),
        remap: false,
        number: reader.number,
        stopped: reader.stopped,
        filled: 0,
    };
    let first = read_first(words, memory, opening.first, out, start);
    let whole = wholes(opening.room, scrap.len() - at, kept);
    let last = batch(words, memory, scrap, at, whole, out, first);
    close(carried, kept, scrap, at + 60 * whole, last)
}

// The hart of the words left, and its map, compiled here, once, where a step asked for it.
pub(crate) fn handed_back(words: [u64; 43], remap: bool, map: Map) -> Mapped
    ensures { result ≡ remade (state_of words) remap map }
{
    let state = State::from(words);
    let mut left = Mapped {
        hart: Hart { state },
        map,
    };
    if remap {
        let pmp = state.pmp;
        left.map = hart::map_for(pmp);
    }
    left
}
