// Replays a trace from a reader to standard output, in constant memory. What goes on from piece to piece is said in `trace`: here is the
// reading and the writing alone.
#![tactic(auto)]

ghost use Rattle.std.specs.Prelude.{◌≡◌, ◌≤◌, length, IfSome};
ghost use Rattle.paging.specs.Memory.{memory_of as lent};
ghost use Rattle.trace.specs.Sessions.{reset_session, text_session};
ghost use Rattle.replay_stream.specs.Streams.{is_none, memory_of, memory_named, Lending, FromPaths};
ghost use Rattle.replay_stream.specs.Streams.{OnePiece, Streamed, Begun, BegunNamed, FromFile};

use paging::Memory;
use std::io;
use std::io::{Print, Read};
use trace::Session;

// Reading or writing failed, which has been told: the session as the pieces before have left it.
#[derive(Clone, Copy)]
pub struct Failed {
    pub session: Session,
}

// Reads a piece, feeds it and writes its lines. A failure leaves the session as it was.
fn piece<R: Read>(
    rt: HostRuntime,
    memory: Memory<'_>,
    records: &mut R,
    input: &mut [u8; 61440],
    out: &mut [u8; 65600],
    session: Session,
) -> Result<Session, Failed>
    ensures { OnePiece (lent memory.entry) session result }
{
    let failed = Failed { session };
    let count = match streams::fill(records, input) {
        Ok(count) => count,
        Err(stopped) => {
            streams::fail(rt, b"trace", stopped.error);
            return Err(failed);
        }
    };
    let fed = session.feed(memory, &input[..count], out);
    match streams::write(rt, &out[..fed.filled]) {
        Ok(_) => Ok(fed.session),
        Err(_) => Err(failed),
    }
}

// Feeds piece after piece until the session has ended, and writes its ending.
fn pieces<R: Read>(
    rt: HostRuntime,
    memory: Memory<'_>,
    records: &mut R,
    input: &mut [u8; 61440],
    out: &mut [u8; 65600],
    start: Session,
) -> Result<Session, Failed>
    ensures { Streamed (lent memory.entry) start result }
{
    let mut session = start;
    for fed in 0..u64::MAX {
        if !session.more {
            break;
        }
        session = piece(rt, memory, records, input, out, session)?;
    }
    let filled = session.finish(out);
    match streams::write(rt, &out[..filled]) {
        Ok(_) => Ok(session),
        Err(_) => Err(Failed { session }),
    }
}

// Its arrays lie in a frame of its own: in that of the caller they would need room before the arguments are judged, and a usage text or a message would want the
// stack of a replay.
#[inline(never)]
fn replay<R: Read>(
    rt: HostRuntime,
    memory: Memory<'_>,
    records: &mut R,
    start: Session,
) -> Result<Session, Failed>
    ensures { Streamed (lent memory.entry) start result }
{
    let mut input = [0u8; 61440];
    let mut out = [0u8; 65600];
    pieces(rt, memory, records, &mut input, &mut out, start)
}

// Replays the records of a reader from reset, with the words of a memory at an address lent to each.
pub fn from_reset<R: Read>(
    rt: HostRuntime,
    memory: Memory<'_>,
    records: &mut R,
) -> Result<Session, Failed>
    ensures { Streamed (lent memory.entry) reset_session result }
{
    replay(rt, memory, records, Session::from_reset())
}

// Replays them from a saved text in either form. A refused text is told, and no record is read.
pub fn from_text<R: Read>(
    rt: HostRuntime,
    memory: Memory<'_>,
    text: &[u8],
    records: &mut R,
) -> Result<Session, Failed>
    ensures { Streamed (lent memory.entry) (text_session text.now) result }
{
    replay(rt, memory, records, Session::from_text(text))
}

// The front of a file, put at the front of the buffer: how many bytes. A file that cannot be read is told.
fn read_file(rt: HostRuntime, path: &[u8], buffer: &mut [u8]) -> Option<usize>
    ensures { IfSome result (λ n. n ≤ length buffer.new) }
{
    let error = match streams::open(rt, path) {
        Ok(mut file) => match streams::fill(&mut file, buffer) {
            Ok(count) => return Some(count),
            Err(stopped) => stopped.error,
        },
        Err(error) => Some(error),
    };
    streams::fail(rt, path, error);
    None
}

// The session from the saved text in a file. One byte more than a text of the second form has is enough to see that the file is too long.
// A file that cannot be read is told, and nothing is written: the session is then that of no text.
fn begin(rt: HostRuntime, path: &[u8]) -> Result<Session, Failed>
    ensures { Begun result }
{
    let mut text = [0u8; 1095];
    match read_file(rt, path, &mut text) {
        Some(count) => Ok(Session::from_text(&text[..count])),
        None => Err(Failed {
            session: Session::from_text(b""),
        }),
    }
}

// Replays them from the saved text in a file.
pub fn from_file<R: Read>(
    rt: HostRuntime,
    memory: Memory<'_>,
    path: &[u8],
    records: &mut R,
) -> Result<Session, Failed>
    ensures { FromFile (lent memory.entry) result }
{
    let start = begin(rt, path)?;
    replay(rt, memory, records, start)
}

// Whether a name is `-`, which stands for no file.
fn is_none(name: &[u8]) -> bool
    ensures { result ≡ is_none name.now }
{
    name == b"-".as_slice()
}

// The session that START names: that of reset for `-`, and else that of its text.
fn begin_named(rt: HostRuntime, name: &[u8]) -> Result<Session, Failed>
    ensures { BegunNamed name.now result }
{
    if is_none(name) {
        Ok(Session::from_reset())
    } else {
        begin(rt, name)
    }
}

// A MEMORY that cannot be read or is not in the form is told, and nothing is written.
fn lend_read<R: Read>(
    rt: HostRuntime,
    text: &mut [u8; 1441815],
    words: &mut [u64; 65536],
    path: &[u8],
    records: &mut R,
    start: Session,
) -> Result<Session, Failed>
    ensures { Lending memory_of start result }
{
    let unlent = Failed { session: start };
    let count = read_file(rt, path, text).ok_or(unlent)?;
    let Some(reading) = memory_text::read(&text[..count], words) else {
        let err = rt.stderr();
        let _ = err.write_all(path);
        let _ = err.write_all(b": not in the form of a memory text\n");
        return Err(unlent);
    };
    let memory = Memory {
        words: &words[..reading.count],
        base: reading.base,
    };
    replay(rt, memory, records, start)
}

// Replays them with the memory in a file. One byte more than a text of 65,536 words has is enough to see that the file is too long. Its arrays, of two mebibytes,
// lie in a frame of its own too.
#[inline(never)]
fn lend_file<R: Read>(
    rt: HostRuntime,
    path: &[u8],
    records: &mut R,
    start: Session,
) -> Result<Session, Failed>
    ensures { Lending memory_of start result }
{
    let mut text = [0u8; 1441815];
    let mut words = [0u64; 65536];
    lend_read(rt, &mut text, &mut words, path, records, start)
}

// Replays them with the memory that a name stands for. It is not looked at behind a refused text.
fn lend<R: Read>(
    rt: HostRuntime,
    path: &[u8],
    records: &mut R,
    start: Session,
) -> Result<Session, Failed>
    ensures { Lending (memory_named path.now) start result }
{
    if !start.more || is_none(path) {
        return replay(
            rt,
            Memory {
                words: &[],
                base: 0,
            },
            records,
            start,
        );
    }
    lend_file(rt, path, records, start)
}

// Replays them from START with MEMORY, either of them the name of a file or `-`. START is judged first.
pub fn from_paths<R: Read>(
    rt: HostRuntime,
    start: &[u8],
    memory: &[u8],
    records: &mut R,
) -> Result<Session, Failed>
    ensures { FromPaths start.now memory.now result }
{
    let session = begin_named(rt, start)?;
    lend(rt, memory, records, session)
}
