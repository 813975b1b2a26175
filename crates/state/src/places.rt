// Where each register lies among the 43 words.
pub const MODE: usize = 0;

pub const PC: usize = 1;

pub const MSTATUS: usize = 2;

pub const MEDELEG: usize = 3;

pub const MIDELEG: usize = 4;

pub const MIE: usize = 5;

pub const MIP: usize = 6;

pub const LINES: usize = 7;

pub const MTVEC: usize = 8;

pub const MCOUNTEREN: usize = 9;

pub const MCOUNTINHIBIT: usize = 10;

pub const MSCRATCH: usize = 11;

pub const MEPC: usize = 12;

pub const MCAUSE: usize = 13;

pub const MTVAL: usize = 14;

pub const STVEC: usize = 15;

pub const SCOUNTEREN: usize = 16;

pub const SSCRATCH: usize = 17;

pub const SEPC: usize = 18;

pub const SCAUSE: usize = 19;

pub const STVAL: usize = 20;

pub const MCYCLE: usize = 21;

pub const MINSTRET: usize = 22;

pub const PMPCFG0: usize = 23;

pub const PMPCFG2: usize = 24;
// The sixteen addresses lie in order.
pub const PMPADDR0: usize = 25;

pub const SATP: usize = 41;

pub const GRAIN: usize = 42;
