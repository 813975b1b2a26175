// A trace: the reader of its records, cut anywhere, and the answers to them, in words or as lines; and saved texts, as programs read and write them.
#![tactic(auto)]

use engine::Told;
use hart::Hart;
use map::Map;

mod batch;
mod ending;
mod feeding;
mod reading;
mod replies;
mod saved;
mod sessions;
mod writer;

pub use saved::write_converted;

// What goes on from one scrap of a trace to the next: the bytes short of a record and their count, the number of the next record, and whether a broken
// record has ended the reading. A count above 59 is read as 59.
// The count stands beside the bytes, and not in a type of its own: C lends both to `tegrwyllt_feed`, with any count.
#[derive(Clone, Copy)]
pub struct Reader {
    pub carried: [u8; 59],
    pub count: u64,
    pub number: u64,
    pub stopped: bool,
}

// What feeding a scrap leaves, how many of its bytes were taken, and how many answers were written.
#[derive(Clone, Copy)]
pub struct Fed {
    pub reader: Reader,
    pub hart: Hart,
    pub map: Map,
    pub taken: usize,
    pub answered: usize,
}

// The same where the words of the hart are changed in place: how many words, or bytes of lines, were written, and whether the map has to be compiled anew.
#[derive(Clone, Copy)]
pub struct Progress {
    pub reader: Reader,
    pub taken: usize,
    pub filled: usize,
    pub remap: bool,
}

// What a step leaves besides the words of the hart: what the engine tells of it, and the place behind its answer.
#[derive(Clone, Copy)]
pub(crate) struct StepLeft {
    pub(crate) told: Told,
    pub(crate) filled: usize,
}

// What goes on from record to record besides the words of the hart: whether a hart can hold them, whether a step asked for a fresh map, the number of
// the next record, whether a broken one ended the reading, and how much is written.
#[derive(Clone, Copy)]
pub(crate) struct Cursor {
    pub(crate) held: bool,
    pub(crate) remap: bool,
    pub(crate) number: u64,
    pub(crate) stopped: bool,
    pub(crate) filled: usize,
}

// The record that the carried bytes begin, where the scrap completes it and there is room; the room behind it, the place behind it, and how many bytes are
// still carried.
#[derive(Clone, Copy)]
pub(crate) struct Opening {
    pub(crate) first: Option<[u8; 60]>,
    pub(crate) room: usize,
    pub(crate) at: usize,
    pub(crate) kept: usize,
}

// What goes on from one piece of a trace to the next in a program: the reader with its hart and map, whether there may be more input, and the refusal of
// the text it started from, if any. It stays a number: `feed` and `finish` promise what they do whatever number a caller puts there.
#[derive(Clone, Copy)]
pub struct Session {
    pub reader: Reader,
    pub hart: Hart,
    pub map: Map,
    pub more: bool,
    pub refusal: Option<u64>,
}

// What feeding a piece leaves, and how many bytes of lines it wrote.
#[derive(Clone, Copy)]
pub struct Written {
    pub session: Session,
    pub filled: usize,
}
