// convert TO: converts the saved text on standard input, which is in the other form, to the form TO.
#![tactic(auto)]

use std::io;
use text::Form;

const USAGE: [&[u8]; 4] = [
    b"usage: convert TO <TEXT\n",
    b"Converts a saved text to the form TO, which is 1 or 2. TEXT is in the other form.\n",
    b"Output is whole if it ends with the line of the form's last key, `pmpaddr15` or `grain`,\n",
    b"or is `refused 4`, `refused 5` or `refused 12` alone.\n",
];

// Line by line, so that those for which there is room come out where the rest cannot be written. `replay` has its like, for the reason below.
fn usage(to: &impl Print) -> io::Result<()> {
    for line in USAGE {
        to.write_all(line)?;
    }
    Ok(())
}

// Tells what is wrong with the arguments. Nothing goes to standard output. `replay` has its like: one function for both would be a public one of which no
// clause can say anything.
fn wrong(rt: HostRuntime, what: &[u8], argument: &[u8]) -> io::Result<()> {
    let err = rt.stderr();
    err.write_all(b"convert: ")?;
    err.write_all(what)?;
    err.write_all(argument)?;
    err.write_all(b"\n")?;
    usage(&err)
}

// One byte more than a text of the second form has is enough to see that the input is too long. What cannot be read or written is told.
fn convert(rt: HostRuntime, to: Form) {
    let mut text = [0u8; 1095];
    let mut out = [0u8; 1094];
    match streams::fill(&mut rt.stdin(), &mut text) {
        Ok(count) => {
            let filled = trace::write_converted(to, &text[..count], &mut out);
            let _ = streams::write(rt, &out[..filled]);
        }
        Err(stopped) => streams::fail(rt, b"standard input", stopped.error),
    }
}

fn with_argument(rt: HostRuntime, to: &[u8]) -> io::Result<()> {
    match to {
        b"--help" => return usage(&rt),
        b"1" => convert(rt, Form::First),
        b"2" => convert(rt, Form::Second),
        _ => return wrong(rt, b"TO is 1 or 2, not ", to),
    }
    Ok(())
}

fn read_argument(rt: HostRuntime) -> io::Result<()> {
    let mut to = [0u8; 4096];
    match streams::argument(rt, 1, b"TO", &mut to) {
        Some(n) => with_argument(rt, &to[..n]),
        None => Ok(()),
    }
}

fn main(rt: HostRuntime) -> io::Result<()> {
    if streams::has_argument(rt, 2) {
        wrong(rt, b"too many arguments", b"")
    } else if streams::has_argument(rt, 1) {
        read_argument(rt)
    } else {
        wrong(rt, b"TO is missing", b"")
    }
}
