// The registers in the order of a saved text's lines, satp and the grain last, in a slice that is read and written where it lies. A slice of another length holds no state: it reads
// as the reset state, and stays as it is.
ghost use Rattle.std.specs.Prelude.{◌≡◌, set};
ghost use Rattle.std.proofs.lemmas.List.Edits.{sets};
ghost use Rattle.state.specs.Words.{register_words, pmp_words, words_of, registers_of, pmp_of, state_of};
ghost use Rattle.state.specs.Slices.{loaded, loaded_registers, loaded_pmp, loaded_satp, stored, stored_registers, stored_pmp, stored_satp};

use crate::{State, places};
use protection::Pmp;
use registers::{Counters, Interrupts, LevelRegisters, Registers};

// Of an array, as `pmp_at`, `put_registers` and `put_pmp` are: `load_registers` and its like promise besides what slices of other lengths read as.
pub(crate) fn registers_at(words: &[u64; 43]) -> Registers
    ensures { result ≡ registers_of words.now }
{
    let interrupts = Interrupts {
        mideleg: words[places::MIDELEG],
        mie: words[places::MIE],
        mip: words[places::MIP],
        lines: words[places::LINES],
    };
    let counters = Counters {
        mcountinhibit: words[places::MCOUNTINHIBIT],
        mcycle: words[places::MCYCLE],
        minstret: words[places::MINSTRET],
    };
    let machine = LevelRegisters {
        tvec: words[places::MTVEC],
        counteren: words[places::MCOUNTEREN],
        scratch: words[places::MSCRATCH],
        epc: words[places::MEPC],
        cause: words[places::MCAUSE],
        tval: words[places::MTVAL],
    };
    let supervisor = LevelRegisters {
        tvec: words[places::STVEC],
        counteren: words[places::SCOUNTEREN],
        scratch: words[places::SSCRATCH],
        epc: words[places::SEPC],
        cause: words[places::SCAUSE],
        tval: words[places::STVAL],
    };
    Registers {
        mode: words[places::MODE],
        pc: words[places::PC],
        mstatus: words[places::MSTATUS],
        medeleg: words[places::MEDELEG],
        interrupts,
        counters,
        machine,
        supervisor,
    }
}

// The registers but those of protection.
#[tactic(auto, unfolding(crate::specs::Slices::loaded_registers))]
pub fn load_registers(words: &[u64]) -> Registers
    ensures { result ≡ loaded_registers words.now }
{
    match words.as_array::<43>() {
        Some(words) => registers_at(words),
        None => registers::reset_registers(),
    }
}

fn put_registers(registers: Registers, words: &mut [u64; 43])
    ensures { words.new ≡ sets words.old 0 (register_words registers) }
{
    let interrupts = registers.interrupts;
    let counters = registers.counters;
    let machine = registers.machine;
    let supervisor = registers.supervisor;
    words[places::MODE] = registers.mode;
    words[places::PC] = registers.pc;
    words[places::MSTATUS] = registers.mstatus;
    words[places::MEDELEG] = registers.medeleg;
    words[places::MIDELEG] = interrupts.mideleg;
    words[places::MIE] = interrupts.mie;
    words[places::MIP] = interrupts.mip;
    words[places::LINES] = interrupts.lines;
    words[places::MTVEC] = machine.tvec;
    words[places::MCOUNTEREN] = machine.counteren;
    words[places::MCOUNTINHIBIT] = counters.mcountinhibit;
    words[places::MSCRATCH] = machine.scratch;
    words[places::MEPC] = machine.epc;
    words[places::MCAUSE] = machine.cause;
    words[places::MTVAL] = machine.tval;
    words[places::STVEC] = supervisor.tvec;
    words[places::SCOUNTEREN] = supervisor.counteren;
    words[places::SSCRATCH] = supervisor.scratch;
    words[places::SEPC] = supervisor.epc;
    words[places::SCAUSE] = supervisor.cause;
    words[places::STVAL] = supervisor.tval;
    words[places::MCYCLE] = counters.mcycle;
    words[places::MINSTRET] = counters.minstret;
}

// Writes the registers but those of protection.
#[tactic(auto, unfolding(crate::specs::Slices::stored_registers))]
pub fn store_registers(registers: Registers, words: &mut [u64])
    ensures { words.new ≡ stored_registers registers words.old }
{
    if let Some(words) = words.as_mut_array::<43>() {
        put_registers(registers, words);
    }
}

// The addresses are copied by a loop, here and below: it is compiled to one copy of 128 bytes. Sixteen reads stay sixteen loads and stores, and
// `copy_from_slice` a test of which way to copy, for which all of the registers are copied once more.
fn pmp_at(words: &[u64; 43]) -> Pmp
    ensures { result ≡ pmp_of words.now }
{
    let mut addrs = [0; 16];
    for i in 0..16 {
        addrs[i] = words[places::PMPADDR0 + i];
    }
    let cfgs = protection::configs_of(words[places::PMPCFG0], words[places::PMPCFG2]);
    Pmp {
        grain: words[places::GRAIN],
        cfgs,
        addrs,
    }
}

// The protection registers.
#[tactic(auto, unfolding(crate::specs::Slices::loaded_pmp))]
pub fn load_pmp(words: &[u64]) -> Pmp
    ensures { result ≡ loaded_pmp words.now }
{
    match words.as_array::<43>() {
        Some(words) => pmp_at(words),
        None => protection::reset(0),
    }
}

fn put_pmp(pmp: Pmp, words: &mut [u64; 43])
    ensures { words.new ≡ sets (set words.old 42 pmp.grain) 23 (pmp_words pmp) }
{
    words[places::GRAIN] = pmp.grain;
    words[places::PMPCFG0] = protection::pmpcfg0(pmp.cfgs);
    words[places::PMPCFG2] = protection::pmpcfg2(pmp.cfgs);
    let addrs = pmp.addrs;
    for i in 0..16 {
        words[places::PMPADDR0 + i] = addrs[i];
    }
}

// Writes the protection registers.
#[tactic(auto, unfolding(crate::specs::Slices::stored_pmp))]
pub fn store_pmp(pmp: Pmp, words: &mut [u64])
    ensures { words.new ≡ stored_pmp pmp words.old }
{
    if let Some(words) = words.as_mut_array::<43>() {
        put_pmp(pmp, words);
    }
}

#[tactic(auto, unfolding(crate::specs::Slices::loaded_satp))]
pub fn load_satp(words: &[u64]) -> u64
    ensures { result ≡ loaded_satp words.now }
{
    match words.as_array::<43>() {
        Some(words) => words[places::SATP],
        None => 0,
    }
}

#[tactic(auto, unfolding(crate::specs::Slices::stored_satp))]
pub fn store_satp(satp: u64, words: &mut [u64])
    ensures { words.new ≡ stored_satp satp words.old }
{
    if let Some(words) = words.as_mut_array::<43>() {
        words[places::SATP] = satp;
    }
}

// All registers.
pub fn load(words: &[u64]) -> State
    ensures { result ≡ loaded words.now }
{
    State {
        registers: load_registers(words),
        pmp: load_pmp(words),
        satp: load_satp(words),
    }
}

// Writes all registers.
pub fn store(state: State, words: &mut [u64])
    ensures { words.new ≡ stored state words.old }
{
    store_registers(state.registers, words);
    store_pmp(state.pmp, words);
    store_satp(state.satp, words);
}

// The words of a state: read again they give the state.
impl From<State> for [u64; 43] {
    ghost from_gives = { λ state words. (words ≡ words_of state) × (state_of words ≡ state) };

    fn from(state: State) -> [u64; 43] {
        let mut words = [0; 43];
        store(state, &mut words);
        words
    }
}

impl From<[u64; 43]> for State {
    ghost from_gives = { λ words state. state ≡ state_of words };

    fn from(words: [u64; 43]) -> State {
        load(&words)
    }
}
