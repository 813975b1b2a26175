// The owners of an access's bytes, range by range. A byte is a bit: the access's first byte is bit 0, and there are at most eight.
ghost use Rattle.std.specs.Prelude.{◌≡◌};
ghost use Rattle.map.specs.Reading.{first_bytes, bytes_held, unread, read_range};

use crate::{Range, Reading};

// The first `count` bytes, of eight.
fn first_bytes(count: u64) -> u64
    ensures { result ≡ first_bytes count }
{
    (1u64 << count.min(8)) - 1
}

// The bytes of an access from `address` on that a range holds.
#[tactic(auto, unfolding(crate::specs::Reading::bytes_held), using(crate::proofs::ReadingLaws::none_cleared))]
fn bytes_held(address: u64, range: Range) -> u64
    ensures { result ≡ bytes_held address range }
{
    if range.last < address {
        return 0;
    }
    let up_to_last = first_bytes((range.last - address).min(7) + 1);
    if range.first < address {
        up_to_last
    } else {
        up_to_last & !first_bytes(range.first - address)
    }
}

// Nothing is read yet of an access of `size` bytes.
pub(crate) fn start(size: u64) -> Reading
    ensures { result ≡ unread size }
{
    Reading {
        unread: first_bytes(size),
        low: 16,
        high: 0,
    }
}

// The next range is read for those bytes that it holds and no range before it does.
#[tactic(auto, unfolding(crate::specs::Reading::read_range))]
pub(crate) fn read_range(address: u64, reading: Reading, range: Range) -> Reading
    ensures { result ≡ read_range address reading range }
{
    let held = reading.unread & bytes_held(address, range);
    if held == 0 {
        return reading;
    }
    Reading {
        unread: reading.unread & !held,
        low: reading.low.min(range.owner),
        high: reading.high.max(range.owner),
    }
}
