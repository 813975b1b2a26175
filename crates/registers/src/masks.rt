// The bits of each register that a hart can hold.

// mstatus, beside SXL=UXL=2.
pub const MSTATUS: u64 = 0x7E19AA;

pub const SXL_UXL: u64 = 0xA00000000;

pub const UXL: u64 = 0x200000000;

pub const SSTATUS: u64 = 0xC0122;

pub const MEDELEG: u64 = 0xB3FF;

pub const MIDELEG: u64 = 0x222;

pub const MIE: u64 = 0xAAA;

// The software bits of mip.
pub const MIP: u64 = 0x222;

pub const LINES: u64 = 0xA88;

// mcounteren, scounteren and mcountinhibit.
pub const COUNTERS: u64 = 0x5;

// mcause and scause.
pub const CAUSE: u64 = 0x800000000000003F;
