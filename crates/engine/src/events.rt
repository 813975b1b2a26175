// The steps that concern the registers alone.
ghost use Rattle.std.specs.Prelude.{◌≡◌};
ghost use Rattle.state.specs.Words.{registers_of, state_of};
ghost use Rattle.trap.specs.Return.{return_step};
ghost use Rattle.engine.specs.Effects.{with_registers, on_registers, event_effect};

use registers::Registers;
use state::{load_registers, store_registers};
use steps::{Answer, Event, Level};
use trap::Outcome;

// Lets a rule make an outcome of the registers, and writes those that it leaves. Each use reads the registers for itself, so that it moves only those
// that its rule needs.
pub(crate) fn on_registers<F: FnOnce(Registers) -> Outcome>(
    words: &mut [u64; 43],
    rule: F,
) -> Answer
    requires { F.pre rule (registers_of words.old) }
    ensures made { F.post rule (registers_of words.old) (record { registers = registers_of words.new; answer = result }) }
    ensures rest_kept { state_of words.new ≡ with_registers (state_of words.old) (registers_of words.new) }
{
    let outcome = rule(load_registers(words));
    store_registers(outcome.registers, words);
    outcome.answer
}

// MRET for the machine level, SRET for the supervisor level. Done and illegal are apart, so that what is compiled stores
// mode, pc and mstatus alone for a return.
fn step_return(words: &mut [u64; 43], level: Level) -> Answer
    ensures value { result ≡ (on_registers (state_of words.old) (return_step level (registers_of words.old))).answer }
    ensures words_after { state_of words.new ≡ (on_registers (state_of words.old) (return_step level (registers_of words.old))).state }
{
    if !trap::returns::may_return(level, load_registers(words)) {
        return on_registers(words, trap::enter::illegal_instruction);
    }
    store_registers(
        trap::returns::return_registers(level, load_registers(words)),
        words,
    );
    Answer::Done
}

pub(crate) fn step_event(words: &mut [u64; 43], event: Event) -> Answer
    ensures value { result ≡ (event_effect (state_of words.old) event).answer }
    ensures words_after { state_of words.new ≡ (event_effect (state_of words.old) event).state }
{
    match event {
        Event::Raise(cause, tval) => {
            on_registers(words, |registers| {
                trap::enter::raise_step(registers, cause, tval)
            })
        }
        Event::Lines(lines) => on_registers(words, |registers| {
            trap::interrupt::lines_step(registers, lines)
        }),
        Event::TakeInterrupt => on_registers(words, trap::interrupt::take_interrupt),
        Event::Mret => step_return(words, Level::Machine),
        Event::Sret => step_return(words, Level::Supervisor),
        Event::Wfi => on_registers(words, trap::returns::wait),
        Event::Ecall => on_registers(words, trap::enter::environment_call),
        Event::Ebreak => on_registers(words, trap::enter::breakpoint),
        Event::Advance(target) => on_registers(words, |registers| {
            trap::time::advance(registers, target)
        }),
        Event::Elapsed(cycles, retired) => {
            on_registers(words, |registers| {
                trap::time::elapse(registers, cycles, retired)
            })
        }
    }
}
