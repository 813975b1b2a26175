// The bytes that an entry matches, and its lock.
ghost use Rattle.std.specs.Prelude.{◌≡◌, ◌-◌, ◌*◌, ◌<◌, min};
ghost use Rattle.pmp.specs.Entry.{top, trailing_ones, napot, span_of, field_a, grain_holdable, legal_grain, low_zeros, low_ones, address_read, address_matched, span_read, locked, contains};

use crate::{Span, TOP};

// 2^54: the first word past physical memory.
const TOP_WORD: u64 = 0x40000000000000;

// The number of ones at the low end of a word.
#[tactic(auto, using(crate::proofs::EntryLaws::ones_zeros))]
fn trailing_ones(word: u64) -> u32
    ensures { result ≡ trailing_ones 64 word }
{
    u64::trailing_zeros(!word)
}

// The first byte of a word, cut at the end of memory.
fn word_start(word: u64) -> u64
    ensures { result ≡ min (4 * word) top }
{
    word.min(TOP_WORD) * 4
}

// The naturally aligned power of two bytes that an address register names. Its size is tested before it is formed, so that no sum wraps.
pub(crate) fn napot_span(addr: u64) -> Span
    ensures { result ≡ napot addr (trailing_ones 64 addr) }
{
    let t = trailing_ones(addr);
    if 64 <= t {
        return Span { low: 0, high: TOP };
    }
    let power = 1u64 << t;
    let low = word_start(addr - (power - 1));
    let high = if t < 53 {
        (low + power * 8).min(TOP)
    } else {
        TOP
    };
    Span { low, high }
}

// The bytes of an entry, from its configuration byte, the address by which it matches and TOR's lower bound.
#[tactic(auto, unfolding(crate::specs::Entry::span_of))]
fn span_of(cfg: u8, addr: u64, before: u64) -> Span
    ensures { result ≡ span_of (field_a cfg) addr before }
{
    let a = cfg / 8 % 4;
    match a {
        0 => Span { low: 0, high: 0 },
        1 => Span {
            low: word_start(before),
            high: word_start(addr),
        },
        2 => {
            let low = word_start(addr);
            Span {
                low,
                high: (low + 4).min(TOP),
            }
        }
        _ => napot_span(addr),
    }
}

// Whether a hart can hold this grain.
pub fn grain_can_hold(grain: u64) -> bool
    ensures { result ≡ grain_holdable grain }
{
    grain < 11
}

// The grain, or 0 for one above 10.
pub fn legal_grain(grain: u64) -> u64
    ensures value { result ≡ legal_grain grain }
    ensures upper_bound { result < 11 }
{
    if grain_can_hold(grain) { grain } else { 0 }
}

// What an address register reads where A is 0 or 1, and what TOR takes of the one before: its low G bits are zeros.
pub(crate) fn zeros_read(grain: u64, addr: u64) -> u64
    ensures { result ≡ low_zeros (legal_grain grain) addr }
{
    let count = legal_grain(grain);
    (addr >> count) << count
}

// What an address register reads where A is 2 or 3: its low G-1 bits are ones; with G of 0 or 1 it reads as stored.
#[tactic(auto, using(crate::proofs::EntryLaws::power_fits, crate::proofs::GrainLaws::ones_put))]
pub(crate) fn ones_read(grain: u64, addr: u64) -> u64
    ensures { result ≡ low_ones (legal_grain grain - 1) addr }
{
    let low = (1u64 << legal_grain(grain)) - 1;
    addr | (low >> 1)
}

// What an address register reads, by the A field of its entry.
#[tactic(auto, unfolding(crate::specs::Entry::address_read))]
pub fn address_read(grain: u64, cfg: u8, addr: u64) -> u64
    ensures { result ≡ address_read grain (field_a cfg) addr }
{
    if cfg / 8 % 4 < 2 {
        zeros_read(grain, addr)
    } else {
        ones_read(grain, addr)
    }
}

// The address by which an entry matches.
fn address_matched(grain: u64, cfg: u8, addr: u64) -> u64
    ensures { result ≡ address_matched grain (field_a cfg) addr }
{
    if cfg / 8 % 4 == 2 {
        addr
    } else {
        address_read(grain, cfg, addr)
    }
}

// The bytes that an entry matches, from its configuration byte, its address register and the one before.
pub fn entry_span(grain: u64, cfg: u8, addr: u64, before: u64) -> Span
    ensures { result ≡ span_read grain (field_a cfg) addr before }
{
    let matched = address_matched(grain, cfg, addr);
    let bound = zeros_read(grain, before);
    span_of(cfg, matched, bound)
}

// Whether a byte lies in the span.
pub(crate) fn contains(span: Span, byte: u64) -> bool
    ensures { result ≡ contains span byte }
{
    span.low <= byte && byte < span.high
}

// Whether a configuration byte is locked.
pub fn is_locked(cfg: u8) -> bool
    ensures { result ≡ locked cfg }
{
    cfg / 128 == 1
}
