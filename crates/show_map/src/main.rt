// Prints the maps of two hand-checked settings, W8 and W9, and the answers to queries on the first.
#![tactic(auto)]

use map::{Map, Range};
use pmp::{Access, Decision, Mode};
use std::{fmt, io};

// The entry that decided, or that owns a byte, or none.
#[derive(Clone, Copy)]
struct Entry(u64);

impl fmt::Display for Entry {
    fn fmt<W: fmt::Write>(&self, f: &mut fmt::Formatter<W>) -> fmt::Result {
        if self.0 == u64::from(pmp::NONE) {
            f.write_str("none")
        } else {
            write!(f, "{}", self.0)
        }
    }
}

#[derive(Clone, Copy)]
struct ModeText(Mode);

impl fmt::Display for ModeText {
    fn fmt<W: fmt::Write>(&self, f: &mut fmt::Formatter<W>) -> fmt::Result {
        f.write_str(match self.0 {
            Mode::User => "U",
            Mode::Supervisor => "S",
            Mode::Machine => "M",
        })
    }
}

#[derive(Clone, Copy)]
struct AccessText(Access);

impl fmt::Display for AccessText {
    fn fmt<W: fmt::Write>(&self, f: &mut fmt::Formatter<W>) -> fmt::Result {
        f.write_str(match self.0 {
            Access::Fetch => "fetch",
            Access::Load => "load",
            Access::Store => "store",
        })
    }
}

// The ranges that the map is read by, one a line. Here and below a line is written part by part, so that those for which there is room come out where the rest
// cannot be written.
fn show_map(rt: &impl Print, map: &Map) -> io::Result<()> {
    for range in &map.ranges[..map::count_read(map.count)] {
        let Range { first, last, owner } = *range;
        print!(rt; "range {first:016x} {last:016x} ")?;
        print!(rt; "{}", Entry(owner))?;
        println!(rt)?;
    }
    Ok(())
}

fn show_decision(rt: &impl Print, decision: Decision) -> io::Result<()> {
    let entry = match decision {
        Decision::Granted(entry) => {
            print!(rt; " granted")?;
            entry
        }
        Decision::Fault(cause, entry) => {
            print!(rt; " fault {cause}")?;
            entry
        }
        Decision::Refused(refusal) => return print!(rt; " refused {}", u64::from(refusal)),
    };
    print!(rt; " entry ")?;
    print!(rt; "{}", Entry(u64::from(entry)))
}

// One line: the query and its answer.
fn show_query(
    rt: &impl Print,
    cfgs: [u8; 16],
    map: Map,
    (mode, access, address, size): (Mode, Access, u64, u64),
) -> io::Result<()> {
    print!(rt; "query ")?;
    print!(rt; "{} ", ModeText(mode))?;
    print!(rt; "{} ", AccessText(access))?;
    print!(rt; "{address:016x} {size}")?;
    show_decision(rt, map::query(cfgs, map, mode, access, address, size))?;
    println!(rt)
}

// W8 with permissions: entry 0 NA4 at 3 without any, entry 1 NAPOT 0x1FF with R and W.
fn show_nested(rt: &impl Print) -> io::Result<()> {
    let cfgs: [u8; 16] = [0x10, 0x1b, 0, 0, 0, 0, 0, 0, 0, 0, 0, 0, 0, 0, 0, 0];
    let addrs: [u64; 16] = [3, 0x1ff, 0, 0, 0, 0, 0, 0, 0, 0, 0, 0, 0, 0, 0, 0];
    let map = map::compile(0, cfgs, addrs);
    show_map(rt, &map)?;
    let queries = [
        (Mode::Machine, Access::Load, 8, 8),
        (Mode::Supervisor, Access::Load, 8, 4),
        (Mode::Supervisor, Access::Load, 0xc, 4),
        (Mode::Machine, Access::Store, 0xc, 4),
        (Mode::User, Access::Store, 0x10, 8),
        (Mode::User, Access::Fetch, 0x10, 4),
        (Mode::Supervisor, Access::Store, 0xffe, 4),
        (Mode::User, Access::Load, 0x1000, 1),
        (Mode::Machine, Access::Fetch, 0x1000, 4),
        (Mode::Machine, Access::Load, 0xfffffffffffffe, 4),
        (Mode::Machine, Access::Load, 0xfffffffffffffe, 3),
    ];
    for query in queries {
        show_query(rt, cfgs, map, query)?;
    }
    Ok(())
}

// A query on a map of no ranges, and one on a range whose owner is neither an entry nor none.
fn show_refusals(rt: &impl Print) -> io::Result<()> {
    let cfgs = [0u8; 16];
    let range = Range {
        first: 0,
        last: 7,
        owner: 17,
    };
    let ranges = [range; 33];
    show_query(
        rt,
        cfgs,
        Map { count: 0, ranges },
        (Mode::Machine, Access::Load, 0, 1),
    )?;
    show_query(
        rt,
        cfgs,
        Map { count: 34, ranges },
        (Mode::Machine, Access::Load, 4, 8),
    )
}

// W9: sixteen NA4 at 1, 3, .. 31.
fn show_full(rt: &impl Print) -> io::Result<()> {
    let cfgs = [0x10u8; 16];
    let addrs: [u64; 16] = [1, 3, 5, 7, 9, 11, 13, 15, 17, 19, 21, 23, 25, 27, 29, 31];
    show_map(rt, &map::compile(0, cfgs, addrs))
}

fn main(rt: HostRuntime) -> io::Result<()> {
    show_nested(&rt)?;
    show_refusals(&rt)?;
    show_full(&rt)
}
