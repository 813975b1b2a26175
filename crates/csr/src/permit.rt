// Which accesses are an illegal instruction.
ghost use Rattle.std.specs.Prelude.{◌≡◌};
ghost use Rattle.csr.specs.Permit.{attempts_write, counter_hidden, illegal};

use crate::table::accessibility;
use registers::Registers;
use registers::fields::TVM;
use steps::Operation;

// Every operation but a read is a write attempt, even with operand 0.
pub fn attempts_write(operation: Operation) -> bool
    ensures { result ≡ attempts_write operation }
{
    !matches!(operation, Operation::Read)
}

// Whether a counter's number is closed to the mode by mcounteren or scounteren.
fn is_counter_hidden(r: Registers, n: u64) -> bool
    ensures { result ≡ counter_hidden r n }
{
    match n {
        0xC00..=0xC1F => {
            let place = n - 0xC00;
            let machine = (r.machine.counteren >> place) % 2;
            let supervisor = (r.supervisor.counteren >> place) % 2;
            ((r.mode != 3) & (machine != 1)) | ((r.mode == 0) & (supervisor != 1))
        }
        _ => false,
    }
}

// Whether the access is an illegal instruction, for any number. What the table says comes first; nothing in the state closes a register to M.
pub fn is_illegal(r: Registers, operation: Operation, number: u64) -> bool
    ensures { result ≡ illegal r operation number }
{
    let mode = r.mode;
    let access = accessibility(number);
    let illegal_by_address = (access == 0) | (attempts_write(operation) & (access / 8 == 1));
    if mode == 3 {
        return illegal_by_address;
    }
    let below = mode < (access / 2 % 4) as u64;
    let trapped = (number == 0x180) & ((mode == 1) & (r.mstatus / TVM % 2 == 1));
    let hidden = is_counter_hidden(r, number);
    illegal_by_address | (below | (trapped | hidden))
}
