// The fields of mstatus. One of a single bit is 1 where `mstatus / FIELD % 2 == 1`.

pub const SIE: u64 = 0x2;

pub const MIE: u64 = 0x8;

// SPIE and MPIE, four places above.
pub const SPIE: u64 = 0x20;

pub const MPIE: u64 = 0x80;

pub const SPP: u64 = 0x100;

pub const MPP: u64 = 0x1800;

// MPP=1, and MPP=2, which no hart can hold.
pub const MPP_ONE: u64 = 0x800;

pub const MPP_TWO: u64 = 0x1000;

pub const MPRV: u64 = 0x20000;

pub const SUM: u64 = 0x40000;

pub const MXR: u64 = 0x80000;

pub const TVM: u64 = 0x100000;

pub const TW: u64 = 0x200000;

pub const TSR: u64 = 0x400000;
