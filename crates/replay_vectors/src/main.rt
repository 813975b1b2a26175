// Replays stored traces: for each three arguments, START, MEMORY and TRACE, the name of the trace and what replay writes. `-` is no START, or no MEMORY.
#![tactic(auto)]

ghost use Rattle.std.specs.Prelude.{◌≤◌, length};

use std::env::Env;
use std::io;

fn replay(rt: HostRuntime, start: &[u8], memory: &[u8], trace: &[u8]) -> io::Result<()> {
    rt.write_all(trace)?;
    rt.write_all(b"\n")?;
    match streams::open(rt, trace) {
        Ok(mut file) => {
            let _ = replay_stream::from_paths(rt, start, memory, &mut file);
        }
        Err(error) => streams::fail(rt, trace, Some(error)),
    }
    Ok(())
}

// The bytes of an argument, at the front of the buffer: none of one that is missing or too long.
fn argument(rt: HostRuntime, place: usize, buffer: &mut [u8; 4096]) -> usize
    ensures { result ≤ length buffer.new }
{
    rt.arg(place, buffer).unwrap_or(0)
}

fn replay_arguments(rt: HostRuntime, first: usize, second: usize, third: usize) -> io::Result<()> {
    let mut start = [0u8; 4096];
    let mut memory = [0u8; 4096];
    let mut trace = [0u8; 4096];
    let n = argument(rt, first, &mut start);
    let m = argument(rt, second, &mut memory);
    let k = argument(rt, third, &mut trace);
    replay(rt, &start[..n], &memory[..m], &trace[..k])
}

fn main(rt: HostRuntime) -> io::Result<()> {
    for case in 0..usize::MAX / 3 {
        if !streams::has_argument(rt, 3 * case + 2) {
            break;
        }
        replay_arguments(rt, 3 * case + 1, 3 * case + 2, 3 * case + 3)?;
    }
    Ok(())
}
