// The protection map: at most 33 ranges of bytes, each with the lowest entry that matches its bytes, and access queries on it.
#![tactic(auto)]

mod pass;
mod queries;
mod ranges;

ghost use Rattle.std.specs.Prelude.{◌≡◌, min};
ghost use Rattle.pmp.specs.Entry.{top, entries, entry_span};
ghost use Rattle.map.specs.Painting.{painted};
ghost use Rattle.map.specs.Compiled.{map_of, compiled};
ghost use Rattle.map.specs.Boundaries.{Boundaries};
ghost use Rattle.map.specs.Sweep.{normalized, Normalized, spans_in, range_from};

use pmp::{Span, TOP};
pub use queries::{query, query_words};

// The bytes from `first` to `last`, both included. The owner is an entry, 0 to 15, or 16 for none; any number can be given.
#[derive(Clone, Copy)]
pub struct Range {
    pub first: u64,
    pub last: u64,
    pub owner: u64,
}

// The first `count` ranges are the map; a count above 33 is read as 33. The count stands beside its array since 01 and the C interface name both.
#[derive(Clone, Copy)]
pub struct Map {
    pub count: u64,
    pub ranges: [Range; 33],
}

// What has been read of an access in one pass over a map's ranges: the bytes still unread, a bit for each from the first byte up, and the lowest and
// the highest owner read.
#[derive(Clone, Copy)]
pub(crate) struct Reading {
    unread: u64,
    low: u64,
    high: u64,
}

// An entry that matches no byte starts nowhere: 0 up to 0 stands for it.
fn normalize(span: Span) -> Span
    ensures { result ≡ normalized span }
{
    if span.low < span.high {
        span
    } else {
        Span { low: 0, high: 0 }
    }
}

// The range from byte `at` on: it ends with its owner's bytes, or before the bytes of a lower entry.
#[tactic(auto, using(crate::proofs::RangeFromLaws::from_cases))]
fn range_from(spans: &[Span; 16], at: u64) -> Range
    ensures { result ≡ range_from (spans_in spans.now) at entries 0 top }
{
    let mut end = TOP;
    for entry in 0..16 {
        let span = spans[entry];
        if at < span.low {
            end = end.min(span.low);
        } else if at < span.high {
            return Range {
                first: at,
                last: end.min(span.high) - 1,
                owner: entry as u64,
            };
        }
    }
    Range {
        first: at,
        last: end - 1,
        owner: 16,
    }
}

// The map of sixteen entries, range by range from the lowest byte up. Two neighbours never have one owner, since each range ends where the owner
// changes. No test keeps a 34th range out: sixteen entries make at most 33.
fn sweep(spans: &[Span; 16]) -> Map
    requires { Normalized (spans_in spans.now) }
    ensures { result ≡ map_of (painted (spans_in spans.now) entries) }
{
    let mut ranges = [Range {
        first: 0,
        last: 0,
        owner: 16,
    }; 33];
    let mut count: usize = 0;
    let mut at = 0;
    // The bytes are gone over, and not the places of the array: a range says where the next one begins.
    while at < TOP {
        let range = range_from(spans, at);
        ranges[count] = range;
        count += 1;
        at = range.last + 1;
    }
    Map {
        count: count as u64,
        ranges,
    }
}

// The map of the sixteen entries. Each range but the first begins at the first byte that an entry matches or at the byte after its last.
pub fn compile(grain: u64, cfgs: [u8; 16], addrs: [u64; 16]) -> Map
    ensures value { result ≡ compiled grain cfgs addrs }
    ensures boundaries { Boundaries (entry_span grain cfgs addrs) result }
{
    let mut spans = [Span { low: 0, high: 0 }; 16];
    let mut before = 0;
    for (entry, addr) in addrs.iter().enumerate() {
        spans[entry] = normalize(pmp::entry_span(grain, cfgs[entry], *addr, before));
        before = *addr;
    }
    sweep(&spans)
}

// The number of ranges by which a map is read: a count above 33 is read as 33.
pub fn count_read(count: u64) -> usize
    ensures { result ≡ min count 33 }
{
    count.min(33) as usize
}
