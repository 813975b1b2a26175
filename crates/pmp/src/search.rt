// The lowest entry that matches any byte of an access, and whether it matches all.
ghost use Rattle.std.specs.Prelude.{◌≡◌, ◌+◌, ◌≤◌, ◌<◌};
ghost use Rattle.pmp.specs.Search.{every_byte};
ghost use Rattle.pmp.specs.Entry.{top, span_read, field_a, entry_span, contains};
ghost use Rattle.pmp.specs.Rule.{lowest_match};
ghost use Rattle.pmp.specs.Found.{meeting, found};

use crate::entry::{contains, entry_span, napot_span, ones_read, zeros_read};
use crate::{Found, Span};

// The bytes of an entry, where some of those from its first to its last are the access's too. TOR and NA4 are compared by words, so that their bytes are
// formed only where they are needed.
#[tactic(auto, using(crate::proofs::FoundLaws::meeting_cases))]
fn overlapping(grain: u64, cfg: u8, addr: u64, before: u64, address: u64, size: u64) -> Option<Span>
    requires { (0 < size) × (address + size ≤ top) }
    ensures { result ≡ meeting (span_read grain (field_a cfg) addr before) address size }
{
    let first = address / 4;
    let end = (address + size + 3) / 4;
    match cfg / 8 % 4 {
        0 => None,
        1 => {
            if zeros_read(grain, addr) <= first || end <= zeros_read(grain, before) {
                None
            } else {
                Some(entry_span(grain, cfg, addr, before))
            }
        }
        2 => {
            if addr < first || end <= addr {
                None
            } else {
                Some(entry_span(grain, cfg, addr, before))
            }
        }
        _ => {
            let span = napot_span(ones_read(grain, addr));
            let meets = (address < span.high) & (span.low < address + size);
            meets.then_some(span)
        }
    }
}

// The lowest entry that matches any byte of the access. It is told with its byte and its span, so that neither is looked up again.
#[tactic(auto, unfolding(crate::specs::Rule::lowest_match), using(crate::proofs::FoundLaws::found_none, crate::proofs::SearchLaws::lowest_end))]
pub(crate) fn lowest_match(
    grain: u64,
    cfgs: [u8; 16],
    addrs: [u64; 16],
    address: u64,
    size: u64,
) -> Option<Found>
    requires { (0 < size) × (address + size ≤ top) }
    ensures { result ≡ found (entry_span grain cfgs addrs) cfgs (lowest_match (entry_span grain cfgs addrs) address size) }
{
    let mut before = 0;
    'search: {
        for entry in 0..16 {
            let addr = addrs[entry];
            let cfg = cfgs[entry];
            // Where no byte of the access can be the entry's, none is looked at. The loop over the bytes is 01's, and stays one.
            if let Some(span) = overlapping(grain, cfg, addr, before, address, size) {
                for byte in 0..size {
                    if contains(span, address + byte) {
                        break 'search Some(Found {
                            entry: entry as u8,
                            cfg,
                            span,
                        });
                    }
                }
            }
            before = addr;
        }
        None
    }
}

// Whether every byte of the access lies in the span. A span has no gap, so its ends tell.
#[tactic(auto, using(crate::proofs::EntryLaws::contains_every))]
pub(crate) fn contains_all(span: Span, address: u64, size: u64) -> bool
    requires { (0 < size) × (address + size ≤ top) }
    ensures { result ≡ every_byte (contains span) size address }
{
    (span.low <= address) & (address + size <= span.high)
}
