// A trace in pieces, for a program: what goes on from one piece to the next, and what is written for each.
ghost use Rattle.std.specs.Prelude.{◌≡◌, ◌≤◌, length, option_map};
ghost use Rattle.pmp.specs.Number.{refusal_number};
ghost use Rattle.steps.specs.Number.{refusal_of};
ghost use Rattle.paging.specs.Memory.{memory_of};
ghost use Rattle.trace.specs.Buffers.{written_front, written_length};
ghost use Rattle.trace.specs.Sessions.{session_from, reset_session, text_session, fed_piece, piece_lines, piece_room, session_ending};

use crate::ending::put_ending;
use crate::feeding::{handed_back, read};
use crate::saved::form_by_length;
use crate::writer::put_numbered;
use crate::{Reader, Session, Written};
use hart::Hart;
use map::Map;
use paging::Memory;
use steps::Answer;

// The number of an answer's refusal, if it is one.
fn refusal_number(answer: Answer) -> Option<u64>
    ensures { result ≡ option_map refusal_number (refusal_of answer) }
{
    answer.refusal().map(u64::from)
}

fn session_from(hart: Hart, map: Map, refusal: Option<u64>) -> Session
    ensures { result ≡ session_from hart map refusal }
{
    Session {
        reader: Reader::new(),
        hart,
        map,
        more: refusal.is_none(),
        refusal,
    }
}

impl Session {
    // A session from reset, with a grain of 4 bytes.
    pub fn from_reset() -> Session
        ensures { result ≡ reset_session }
    {
        let reset = Hart::reset(0);
        session_from(reset.hart, reset.map, None)
    }

    // A session from a saved text in either form. A refused text has ended it.
    pub fn from_text(text: &[u8]) -> Session
        ensures { result ≡ text_session text.now }
    {
        let reset = Hart::reset(0);
        let form = form_by_length(text);
        let read = reset.hart.restore(reset.map, form, text);
        let refusal = refusal_number(read.answer);
        session_from(read.hart, read.map, refusal)
    }

    // Feeds a piece to the reader, lends each record the memory, and writes the lines to the front of a buffer that has 64 bytes for each record that the
    // piece may complete: its own whole ones, and the one that was begun before it. A piece of 61,440 bytes is full; any other is the last one. A session that
    // has ended stays as it is, and so does one whose buffer is too small.
    pub fn feed(self, memory: Memory<'_>, piece: &[u8], out: &mut [u8]) -> Written
        ensures value { result ≡ fed_piece (memory_of memory.entry) self piece.now out.old }
        ensures out_after { out.new ≡ written_front (piece_room piece.now) (piece_lines (memory_of memory.entry) self piece.now) out.old }
        ensures filled_in_bounds { result.filled ≤ length out.old }
    {
        if !self.more {
            return Written {
                session: self,
                filled: 0,
            };
        }
        let came = piece.len();
        let room = out.len() / 64;
        if room <= came / 60 {
            return Written {
                session: self,
                filled: 0,
            };
        }
        let mut words = <[u64; 43]>::from(self.hart.state);
        let given = self.reader;
        let next = read(given, &mut words, memory, piece, room, out);
        let reader = next.reader;
        let after = handed_back(words, next.remap, self.map);
        let session = Session {
            reader,
            hart: after.hart,
            map: after.map,
            more: (came == 61440) & !reader.stopped,
            refusal: self.refusal,
        };
        Written {
            session,
            filled: next.filled,
        }
    }

    // Writes what comes behind the lines of the records to the front of a buffer of at least 4,096 bytes: the saved text of the end state,
    // the ranges of the map and the bytes left over, or the refusal of the text that was to be the start alone. Nothing is written where there may be more input.
    pub fn finish(self, out: &mut [u8]) -> usize
        ensures value { result ≡ written_length 4096 (session_ending self) out.old }
        ensures out_after { out.new ≡ written_front 4096 (session_ending self) out.old }
        ensures upper_bound { result ≤ length out.old }
    {
        if self.more {
            return 0;
        }
        if out.len() < 4096 {
            return 0;
        }
        match self.refusal {
            None => put_ending(self.hart, self.map, self.reader.left(), out),
            Some(number) => put_numbered(b"refused ", number, out, 0),
        }
    }
}
