// The mixes: sixteen steps over and over, in the fifth 8,192, in the sixth 1,024; and the steps that come before them.
use pmp::Access;
use steps::{Event, Operation, Step};

pub(crate) fn write(number: u64, operand: u64) -> Step {
    Step::Csr(Operation::Write, number, operand)
}

fn set(number: u64, operand: u64) -> Step {
    Step::Csr(Operation::Set, number, operand)
}

fn clear(number: u64, operand: u64) -> Step {
    Step::Csr(Operation::Clear, number, operand)
}

fn read(number: u64) -> Step {
    Step::Csr(Operation::Read, number, 0)
}

pub(crate) fn fetch() -> Step {
    Step::Access(Access::Fetch, 0, 0)
}

pub(crate) fn load(address: u64, size: u64) -> Step {
    Step::Access(Access::Load, address, size)
}

pub(crate) fn store(address: u64, size: u64) -> Step {
    Step::Access(Access::Store, address, size)
}

// From reset, 23 steps: sixteen entries of four readable bytes each, and traps and interrupts for both levels.
pub(crate) fn settings() -> [Step; 23] {
    let mut steps = [write(0x304, 0xAAA); 23];
    for entry in 0..16usize {
        let number = entry as u64;
        steps[entry] = write(0x3B0 + number, 2 * number + 1);
    }
    steps[16] = write(0x3A0, 0x1111111111111111);
    steps[17] = write(0x3A2, 0x1111111111111111);
    steps[18] = write(0x305, 0x80000001);
    steps[19] = write(0x105, 0x40000001);
    steps[20] = write(0x302, 0x100);
    steps[21] = write(0x303, 0x222);
    steps
}

// Reads, writes, sets and clears, all of them done.
pub(crate) fn csr_steps() -> [Step; 16] {
    [
        write(0x340, 0x123456789ABCDEF),
        set(0x300, 0x8),
        read(0xB00),
        clear(0x300, 0x8),
        write(0x305, 0x80000001),
        read(0xF14),
        set(0x304, 0x888),
        read(0x344),
        write(0x341, 0x80000FFF),
        clear(0x304, 0x88),
        read(0x100),
        write(0x140, 0xFEDCBA9876543210),
        set(0x302, 0x5),
        read(0x3B3),
        write(0x143, 0x42),
        read(0xC02),
    ]
}

// From mode M with MPP=U and back to it.
pub(crate) fn trap_steps() -> [Step; 16] {
    [
        Step::Event(Event::Mret),
        Step::Event(Event::Ecall),
        Step::Event(Event::Sret),
        Step::Event(Event::Ebreak),
        Step::Event(Event::Mret),
        Step::Event(Event::Raise(5, 0x1234)),
        Step::Event(Event::Lines(0x80)),
        Step::Event(Event::Mret),
        Step::Event(Event::TakeInterrupt),
        Step::Event(Event::Lines(0)),
        Step::Event(Event::Mret),
        Step::Event(Event::TakeInterrupt),
        Step::Event(Event::Mret),
        Step::Event(Event::Wfi),
        Step::Event(Event::Advance(0x1002)),
        Step::Event(Event::Mret),
    ]
}

// Two of them fault: an entry matches some of the bytes only, and some lie past the end of memory.
pub(crate) fn access_steps() -> [Step; 16] {
    [
        fetch(),
        load(0xC, 4),
        load(0x7C, 2),
        store(0x24, 4),
        load(0x1000, 8),
        store(0x2000, 8),
        load(0x8, 8),
        fetch(),
        load(0x1003, 1),
        store(0x44, 2),
        load(0x3C, 4),
        store(0x55, 1),
        load(0xFFFFFFFFFFFFF8, 8),
        store(0xFFFFFFFFFFFFFC, 8),
        fetch(),
        load(0x64, 4),
    ]
}

// Each of them changes a register, so the map is compiled anew.
pub(crate) fn protection_steps() -> [Step; 16] {
    [
        write(0x3B0, 0x41),
        write(0x3B2, 0x1FF),
        write(0x3B4, 0x49),
        write(0x3B6, 0x4D),
        write(0x3B8, 0x51),
        write(0x3BA, 0x55),
        write(0x3BC, 0x59),
        write(0x3A0, 0x1111111B11091119),
        write(0x3B0, 1),
        write(0x3B2, 5),
        write(0x3B4, 9),
        write(0x3B6, 13),
        write(0x3B8, 17),
        write(0x3BA, 21),
        write(0x3BC, 25),
        write(0x3A0, 0x1111111111111111),
    ]
}

// The numbers with a register, in rising order.
fn present_number(place: u64) -> u64 {
    match place {
        0 => 0x100,
        1..=3 => 0x103 + place,
        4 => 0x10A,
        5..=9 => 0x13B + place,
        10 => 0x180,
        11..=17 => 0x2F5 + place,
        18 => 0x30A,
        19 => 0x320,
        20..=53 => 0x30F + place,
        54 => 0x3A0,
        55 => 0x3A2,
        56..=71 => 0x378 + place,
        72 => 0xB00,
        73..=102 => 0xAB9 + place,
        103 => 0xC00,
        104..=133 => 0xB9A + place,
        134..=138 => 0xE8B + place,
        _ => 0,
    }
}

// A number with a register and any number, in turn: over 8,192 steps every number there is comes once as the second.
fn any_number(place: u64) -> u64 {
    let turn = place / 2 % 4096;
    let scattered = turn * (turn + 1) / 2 % 4096;
    if place % 2 == 0 {
        present_number(scattered % 139)
    } else {
        scattered
    }
}

// Numbers with and without a register. With operand 0 no protection register changes.
pub(crate) fn any_number_step(place: u64) -> Step {
    let number = any_number(place);
    match place / 2 % 4096 % 3 {
        0 => read(number),
        1 => set(number, 0),
        _ => clear(number, 0),
    }
}
