// replay [START] [MEMORY]: replays the trace on standard input from the saved text, of either form, in the file START, or from reset, with the words in the
// file MEMORY for page tables, or none.
#![tactic(auto)]

use std::io;

const USAGE: [&[u8]; 4] = [
    b"usage: replay [START] [MEMORY] <TRACE\n",
    b"Replays a trace from the saved text, of either form, in the file START, or from reset, with\n",
    b"the words in the file MEMORY for page tables, or none. Either may be `-`, for no file.\n",
    b"Output is whole if its last line is `left N`, or `refused 4` or `refused 5` alone.\n",
];

// Line by line, so that those for which there is room come out where the rest cannot be written. `convert` has its like, for the reason below.
fn usage(to: &impl Print) -> io::Result<()> {
    for line in USAGE {
        to.write_all(line)?;
    }
    Ok(())
}

// Tells what is wrong with the arguments. Nothing goes to standard output. `convert` has its like: one function for both would be a public one of which no
// clause can say anything.
fn wrong(rt: HostRuntime, what: &[u8], argument: &[u8]) -> io::Result<()> {
    let err = rt.stderr();
    err.write_all(b"replay: ")?;
    err.write_all(what)?;
    err.write_all(argument)?;
    err.write_all(b"\n")?;
    usage(&err)
}

// `-` alone is no option.
fn is_option(argument: &[u8]) -> bool {
    argument.starts_with(b"-") && argument != b"-".as_slice()
}

fn with_arguments(rt: HostRuntime, start: &[u8], memory: &[u8]) -> io::Result<()> {
    if start == b"--help".as_slice() {
        usage(&rt)
    } else if is_option(start) {
        wrong(rt, b"unknown option ", start)
    } else if is_option(memory) {
        wrong(rt, b"unknown option ", memory)
    } else {
        // A failure has been told, and the exit status tells nothing of it.
        let _ = replay_stream::from_paths(rt, start, memory, &mut rt.stdin());
        Ok(())
    }
}

fn read_memory(rt: HostRuntime, start: &[u8]) -> io::Result<()> {
    let mut memory = [0u8; 4096];
    match streams::argument(rt, 2, b"MEMORY", &mut memory) {
        Some(n) => with_arguments(rt, start, &memory[..n]),
        None => Ok(()),
    }
}

fn read_arguments(rt: HostRuntime) -> io::Result<()> {
    let mut start = [0u8; 4096];
    match streams::argument(rt, 1, b"START", &mut start) {
        Some(n) => {
            if streams::has_argument(rt, 2) {
                read_memory(rt, &start[..n])
            } else {
                with_arguments(rt, &start[..n], b"-")
            }
        }
        None => Ok(()),
    }
}

fn main(rt: HostRuntime) -> io::Result<()> {
    if streams::has_argument(rt, 3) {
        wrong(rt, b"too many arguments", b"")
    } else if streams::has_argument(rt, 1) {
        read_arguments(rt)
    } else {
        with_arguments(rt, b"-", b"-")
    }
}
