// Accesses, judged on the registers and the memory lent to them.
ghost use Rattle.std.specs.Prelude.{◌≡◌};
ghost use Rattle.paging.specs.Memory.{memory_of};
ghost use Rattle.state.specs.Words.{state_of};
ghost use Rattle.engine.specs.Effects.{access_at, access_step};

use crate::events::on_registers;
use paging::{Context, Memory, NotGranted};
use pmp::Access;
use state::{load_pmp, load_registers, load_satp, places};
use steps::Answer;

// A fault reads the registers anew, so that what is compiled loads for a grant only what the effective mode needs.
fn access_at(
    words: &mut [u64; 43],
    memory: Memory<'_>,
    access: Access,
    address: u64,
    size: u64,
) -> Answer
    ensures value { result ≡ (access_at (state_of words.old) (memory_of memory.entry) access address size).answer }
    ensures words_after { state_of words.new ≡ (access_at (state_of words.old) (memory_of memory.entry) access address size).state }
{
    let pmp = load_pmp(words);
    let mode = registers::effective_mode(load_registers(words), access);
    let context = Context {
        satp: load_satp(words),
        mstatus: words[places::MSTATUS],
        mode,
        access,
    };
    match paging::reach(pmp, memory, context, address, size) {
        Ok(entry) => Answer::Granted(entry),
        Err(NotGranted::Fault(cause, tval, entry)) => {
            on_registers(words, |registers| {
                trap::enter::raise_by(registers, cause, tval, entry)
            })
        }
        Err(NotGranted::Refused(refusal)) => Answer::Refused(refusal),
    }
}

pub(crate) fn step_access(
    words: &mut [u64; 43],
    memory: Memory<'_>,
    access: Access,
    address: u64,
    size: u64,
) -> Answer
    ensures value { result ≡ (access_step (state_of words.old) (memory_of memory.entry) access address size).answer }
    ensures words_after { state_of words.new ≡ (access_step (state_of words.old) (memory_of memory.entry) access address size).state }
{
    match access {
        Access::Fetch => {
            let pc = words[places::PC];
            access_at(words, memory, access, pc, 4)
        }
        Access::Load | Access::Store => access_at(words, memory, access, address, size),
    }
}
