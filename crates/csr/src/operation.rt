// A write, a set or a clear of any register.
ghost use Rattle.std.specs.Prelude.{◌≡◌};
ghost use Rattle.state.specs.Words.{registers_of};
ghost use Rattle.state.specs.Slices.{loaded_registers, stored_registers};
ghost use Rattle.csr.specs.Operate.{operated, modified_from, registers_operated};

use crate::permit::attempts_write;
use crate::store::write;
use state::places;
use steps::Operation;

// The value that an operation hands to the write rule.
pub fn value_written(operation: Operation, from: u64, operand: u64) -> u64
    ensures { result ≡ operated operation from operand }
{
    match operation {
        Operation::Write => operand,
        Operation::Set => from | operand,
        Operation::Clear => from & !operand,
        Operation::Read => from,
    }
}

// What a set or a clear starts from: the SEIP line must not stick in mip.
fn modified_from(words: &[u64; 43], number: u64, old: u64) -> u64
    ensures { result ≡ modified_from (registers_of words.now) number old }
{
    if number == 0x344 {
        words[places::MIP]
    } else {
        old
    }
}

// A CSR step that is not illegal, on the words of a hart. `old` is what a read gave before it.
pub fn operate(words: &mut [u64], operation: Operation, number: u64, operand: u64, old: u64)
    ensures { words.new ≡ stored_registers (registers_operated (loaded_registers words.old) operation number operand old) words.old }
{
    let Some(words) = words.as_mut_array::<43>() else {
        return;
    };
    if attempts_write(operation) {
        let from = modified_from(words, number, old);
        write(words, number, value_written(operation, from, operand));
    }
}
