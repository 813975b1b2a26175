// What a write stores.
ghost use Rattle.std.specs.Prelude.{◌≡◌};
ghost use Rattle.state.specs.Words.{registers_of};
ghost use Rattle.state.specs.Slices.{stored_registers};
ghost use Rattle.csr.specs.Store.{status_written, tvec_written, registers_written};

use registers::{fields, masks};
use state::places;

// mstatus: MPP written 2 keeps its old field.
#[tactic(auto, unfolding(crate::specs::Store::status_written))]
fn status_written(old: u64, value: u64) -> u64
    ensures { result ≡ status_written old value }
{
    let kept = (value & masks::MSTATUS) | masks::SXL_UXL;
    if value & fields::MPP == fields::MPP_TWO {
        (kept & !fields::MPP) | (old & fields::MPP)
    } else {
        kept
    }
}

// mtvec and stvec: MODE 2 or 3 is ignored whole.
fn tvec_written(old: u64, value: u64) -> u64
    ensures { result ≡ tvec_written old value }
{
    if value % 4 < 2 { value } else { old }
}

// A write of any value to any number, in the words where they lie: each number stores to one word at most, and no other moves.
pub(crate) fn write(words: &mut [u64; 43], number: u64, value: u64)
    ensures { words.new ≡ stored_registers (registers_written (registers_of words.old) number value) words.old }
{
    match number {
        0x100 => words[places::MSTATUS] = (words[places::MSTATUS] & !masks::SSTATUS)
            | (value & masks::SSTATUS),
        0x104 => words[places::MIE] = (words[places::MIE] & !words[places::MIDELEG])
            | (value & words[places::MIDELEG]),
        0x105 => words[places::STVEC] = tvec_written(words[places::STVEC], value),
        0x106 => words[places::SCOUNTEREN] = value & masks::COUNTERS,
        0x140 => words[places::SSCRATCH] = value,
        0x141 => words[places::SEPC] = value - value % 4,
        0x142 => words[places::SCAUSE] = value & masks::CAUSE,
        0x143 => words[places::STVAL] = value,
        0x144 => {
            let delegated = words[places::MIDELEG] & 0x2;
            words[places::MIP] = (words[places::MIP] & !delegated) | (value & delegated);
        }
        0x300 => words[places::MSTATUS] = status_written(words[places::MSTATUS], value),
        0x302 => words[places::MEDELEG] = value & masks::MEDELEG,
        0x303 => words[places::MIDELEG] = value & masks::MIDELEG,
        0x304 => words[places::MIE] = value & masks::MIE,
        0x305 => words[places::MTVEC] = tvec_written(words[places::MTVEC], value),
        0x306 => words[places::MCOUNTEREN] = value & masks::COUNTERS,
        0x320 => words[places::MCOUNTINHIBIT] = value & masks::COUNTERS,
        0x340 => words[places::MSCRATCH] = value,
        0x341 => words[places::MEPC] = value - value % 4,
        0x342 => words[places::MCAUSE] = value & masks::CAUSE,
        0x343 => words[places::MTVAL] = value,
        0x344 => words[places::MIP] = value & masks::MIP,
        0xB00 => words[places::MCYCLE] = value,
        0xB02 => words[places::MINSTRET] = value,
        _ => {}
    }
}
