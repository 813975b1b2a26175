// Reading and writing whole buffers, in as many calls as the system takes; files and arguments by their bytes; and telling what went wrong.
#![tactic(auto)]

ghost use Rattle.std.specs.Prelude.{◌≤◌, length, IfSome, IsErr, Contains};
ghost use Rattle.streams.specs.Transfers.{Filled, Written};

use arrayvec::ArrayString;
use std::env::{Env, FillError};
use std::fmt::Write;
use std::fs::File;
use std::io;
use std::io::{Print, Read};
use std::str::from_utf8;

// Linux's numbers of what is told of a name: a NUL in it, too many bytes, and bytes that are not UTF-8.
const INVALID: i32 = 22;

const TOO_LONG: i32 = 36;

const NOT_TEXT: i32 = 84;

// A transfer that stopped before its end: the bytes moved before it, and what the system said, if anything.
#[derive(Clone, Copy)]
pub struct Incomplete {
    pub count: usize,
    pub error: Option<io::Error>,
}

// Reads until the buffer is full or the input ends: how many bytes came.
pub fn fill<R: Read>(input: &mut R, buffer: &mut [u8]) -> Result<usize, Incomplete>
    ensures { Filled buffer.old result }
{
    // The count is what is told, so it is kept by itself; std's read_exact tells none where a read fails.
    let mut count: usize = 0;
    while count < buffer.len() {
        let more = input
            .read(&mut buffer[count..])
            .map_err(|error| Incomplete {
                count,
                error: Some(error),
            })?;
        if more == 0 {
            break;
        }
        count += more;
    }
    Ok(count)
}

// Writes to standard output: how many bytes, which are all of them. A write that takes nothing ends it, and is told.
pub fn write(rt: HostRuntime, bytes: &[u8]) -> Result<usize, Incomplete>
    ensures { Written bytes.now result }
{
    let mut rest = bytes;
    while !rest.is_empty() {
        let put = rt.write_some(rest);
        let taken = put.unwrap_or(0);
        if taken == 0 {
            let error = put.err();
            fail(rt, b"standard output", error);
            let count = bytes.len() - rest.len();
            return Err(Incomplete { count, error });
        }
        rest = &rest[taken..];
    }
    Ok(bytes.len())
}

// A line on standard error: what failed, and the system's text of the error.
pub fn fail(rt: HostRuntime, what: &[u8], error: Option<io::Error>) {
    let error = error.unwrap_or(io::Error::from_raw_os_error(0));
    let mut text = ArrayString::<320>::new();
    let _ = write!(text, "{error}");
    let words = text.as_str();
    let words = match words.split_once(" (os error ") {
        Some((words, _)) => words,
        None => words,
    };
    let err = rt.stderr();
    let _ = err.write_all(what);
    let _ = err.write_all(b": ");
    let _ = err.write_all(words.as_bytes());
    let _ = err.write_all(b"\n");
}

// Opens a file for reading by the bytes of its path. No file has a name of 4,096 bytes or more, or one with a byte of 0.
pub fn open(rt: HostRuntime, path: &[u8]) -> io::Result<File>
    ensures too_long { 4096 ≤ length path.now → IsErr result }
    ensures with_zero { Contains path.now 0 → IsErr result }
{
    if path.len() >= 4096 {
        return Err(io::Error::from_raw_os_error(TOO_LONG));
    }
    if path.contains(&0) {
        return Err(io::Error::from_raw_os_error(INVALID));
    }
    match from_utf8(path) {
        Ok(path) => File::open(&rt, path),
        Err(_) => Err(io::Error::from_raw_os_error(NOT_TEXT)),
    }
}

// Whether the program has an argument at a place, of which the first is 1.
pub fn has_argument(rt: HostRuntime, place: usize) -> bool {
    !matches!(rt.arg(place, &mut []), Err(FillError::NotPresent))
}

// Puts an argument at the front of the buffer: its length. One that is missing or too long is told by its name.
pub fn argument(rt: HostRuntime, place: usize, name: &[u8], buffer: &mut [u8]) -> Option<usize>
    ensures { IfSome result (λ n. n ≤ length buffer.new) }
{
    let number = match rt.arg(place, buffer) {
        Ok(n) => return Some(n),
        Err(FillError::TooLong) => TOO_LONG,
        Err(FillError::NotPresent) => INVALID,
    };
    fail(rt, name, Some(io::Error::from_raw_os_error(number)));
    None
}
