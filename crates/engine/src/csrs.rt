// CSR steps.
ghost use Rattle.std.specs.Prelude.{◌≡◌};
ghost use Rattle.state.specs.Words.{state_of};
ghost use Rattle.engine.specs.Effects.{pmp_operated, satp_operated, csr_step, protection_step, satp_step};
ghost use Rattle.engine.specs.Taking.{taken};

use crate::events::on_registers;
use crate::{Taken, Told, apart};
use pmp::Refusal;
use protection::Pmp;
use state::{load_pmp, load_registers, load_satp, places, store_pmp, store_satp};
use steps::{Answer, Operation};

// The number of satp.
const SATP: u64 = 0x180;

// The protection registers after a CSR step on one of them that is not illegal.
fn operate_pmp(pmp: Pmp, operation: Operation, number: u64, operand: u64, old: u64) -> Pmp
    ensures { result ≡ pmp_operated pmp operation number operand old }
{
    if csr::attempts_write(operation) {
        protection::write_register(pmp, number, csr::value_written(operation, old, operand))
    } else {
        pmp
    }
}

// A CSR step on a protection register that is not illegal.
fn step_protection(words: &mut [u64; 43], operation: Operation, number: u64, operand: u64) -> Taken
    ensures value { result ≡ taken (state_of words.old) (protection_step (state_of words.old) operation number operand) }
    ensures words_after { state_of words.new ≡ (protection_step (state_of words.old) operation number operand).state }
{
    let before = load_pmp(words);
    let old = protection::read_register(before, number);
    let after = operate_pmp(before, operation, number, operand, old);
    let pc = trap::returns::next_pc(words[places::PC]);
    store_pmp(after, words);
    words[places::PC] = pc;
    Taken {
        answer: Answer::DoneValue(old),
        told: Told {
            held: true,
            remap: !protection::same(before, after),
        },
    }
}

// satp after a CSR step on it that is not illegal.
fn operate_satp(satp: u64, operation: Operation, operand: u64) -> u64
    ensures { result ≡ satp_operated satp operation operand }
{
    if csr::attempts_write(operation) {
        paging::satp_written(satp, csr::value_written(operation, satp, operand))
    } else {
        satp
    }
}

// A CSR step on satp that is not illegal.
fn step_satp(words: &mut [u64; 43], operation: Operation, operand: u64) -> Taken
    ensures value { result ≡ taken (state_of words.old) (satp_step (state_of words.old) operation operand) }
    ensures words_after { state_of words.new ≡ (satp_step (state_of words.old) operation operand).state }
{
    let old = load_satp(words);
    let after = operate_satp(old, operation, operand);
    let pc = trap::returns::next_pc(words[places::PC]);
    store_satp(after, words);
    words[places::PC] = pc;
    apart(Answer::DoneValue(old))
}

// The registers are read anew for each use, so that no word moves that is not needed.
pub(crate) fn step_csr(
    words: &mut [u64; 43],
    operation: Operation,
    number: u64,
    operand: u64,
) -> Taken
    ensures value { result ≡ taken (state_of words.old) (csr_step (state_of words.old) operation number operand) }
    ensures words_after { state_of words.new ≡ (csr_step (state_of words.old) operation number operand).state }
{
    if 4095 < number {
        return apart(Answer::Refused(Refusal::Argument));
    }
    if csr::is_illegal(load_registers(words), operation, number) {
        return apart(on_registers(words, trap::enter::illegal_instruction));
    }
    if protection::is_pmp(number) {
        return step_protection(words, operation, number, operand);
    }
    if number == SATP {
        return step_satp(words, operation, operand);
    }
    let old = csr::read(load_registers(words), number);
    let pc = trap::returns::next_pc(words[places::PC]);
    csr::operate(words, operation, number, operand, old);
    words[places::PC] = pc;
    apart(Answer::DoneValue(old))
}
