// Access queries, on a map and on a map's words.
ghost use Rattle.std.specs.Prelude.{◌≡◌, ◌≤◌};
ghost use Rattle.map.specs.Query.{readable, unread_decides, ranges_queried, queried};
ghost use Rattle.map.specs.MapWords.{map_of_words};
ghost use Rattle.map.specs.Reading.{read_ranges, reading_decides};

use crate::pass::{read_range, start};
use crate::ranges::{Ranges, Words};
use crate::{Map, Reading};
use pmp::{Access, Decision, Mode, Refusal};

// The owners of an access's bytes, each that of the lowest-numbered range that holds the byte.
#[tactic(auto, using(crate::proofs::ReadingLaws::pass_cases))]
fn read<R: Ranges>(ranges: &R, address: u64, size: u64) -> Reading
    ensures { result ≡ read_ranges address size (R.ranges ranges.now) }
{
    let mut reading = start(size);
    for number in 0..ranges.count() {
        let range = ranges.range(number);
        // Most ranges end before the access, and this test alone passes them over.
        if address <= range.last {
            reading = read_range(address, reading, range);
            if reading.unread == 0 {
                return reading;
            }
        }
    }
    reading
}

// What the owners that were read decide: the lowest, which must be every byte's, or refusal 7 where one is missing or no owner. The lowest is known to be
// at most none, so that it is a byte.
#[tactic(auto, unfolding(crate::specs::Reading::reading_decides))]
fn reading_decides(cfgs: [u8; 16], mode: Mode, access: Access, reading: Reading) -> Decision
    requires { reading.low ≤ 16 }
    ensures { result ≡ reading_decides cfgs mode access reading }
{
    if (0 < reading.unread) | (16 < reading.high) {
        return Decision::Refused(Refusal::Map);
    }
    if reading.low == reading.high {
        pmp::owner_decides(cfgs, mode, access, reading.low)
    } else {
        let lowest = reading.low as u8;
        Decision::Fault(pmp::fault_cause(access), lowest)
    }
}

// Whether the map is read: the size is right, and all bytes lie in memory.
#[tactic(auto, using(crate::proofs::QueryLaws::readable_room))]
fn is_readable(address: u64, size: u64) -> bool
    ensures { result ≡ readable address size }
{
    pmp::is_size(size) && address <= pmp::TOP - size
}

// What is decided where it is not.
fn unread_decides(access: Access, size: u64) -> Decision
    ensures { result ≡ unread_decides access size }
{
    if pmp::is_size(size) {
        Decision::Fault(pmp::fault_cause(access), pmp::NONE)
    } else {
        Decision::Refused(Refusal::Size)
    }
}

// For each byte the lowest-numbered range that holds it is read, and the lowest owner read decides, by the configuration bytes and with no look at an address
// register.
#[tactic(auto, using(crate::proofs::ReadingLaws::low_bound, crate::proofs::ReadingLaws::reading_queried))]
fn decide<R: Ranges>(
    cfgs: [u8; 16],
    ranges: &R,
    mode: Mode,
    access: Access,
    address: u64,
    size: u64,
) -> Decision
    ensures { result ≡ ranges_queried cfgs (R.ranges ranges.now) mode access address size }
{
    if !is_readable(address, size) {
        return unread_decides(access, size);
    }
    reading_decides(cfgs, mode, access, read(ranges, address, size))
}

// An access query on a map.
#[tactic(auto, unfolding(crate::specs::Query::queried))]
pub fn query(
    cfgs: [u8; 16],
    map: Map,
    mode: Mode,
    access: Access,
    address: u64,
    size: u64,
) -> Decision
    ensures { result ≡ queried cfgs map mode access address size }
{
    decide(cfgs, &map, mode, access, address, size)
}

// The same on the map of some words, of any number.
#[tactic(auto, unfolding(crate::specs::Query::queried))]
pub fn query_words(
    cfgs: [u8; 16],
    map: &[u64],
    mode: Mode,
    access: Access,
    address: u64,
    size: u64,
) -> Decision
    ensures { result ≡ queried cfgs (map_of_words map.now) mode access address size }
{
    decide(cfgs, &Words { words: map }, mode, access, address, size)
}
