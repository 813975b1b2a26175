// The register satp: MODE in bits 63:60, ASID, which is always 0, and the page number of the root table in bits 43:0.
ghost use Rattle.std.specs.Prelude.{◌≡◌};
ghost use Rattle.paging.specs.Satp.{satp_holdable, satp_written};

// MODE 0 or 8 and the page number.
const SATP: u64 = 0x80000FFFFFFFFFFF;

// Whether a hart can hold this value.
pub fn satp_can_hold(satp: u64) -> bool
    ensures { result ≡ satp_holdable satp }
{
    satp & SATP == satp
}

// What a write stores, by what was held and the value written.
pub fn satp_written(old: u64, value: u64) -> u64
    ensures { result ≡ satp_written old value }
{
    let mode = value >> 60;
    if (mode == 0) | (mode == 8) {
        value & SATP
    } else {
        old
    }
}
