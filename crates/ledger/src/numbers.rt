// The numbers of a step.
ghost use Rattle.std.specs.Prelude.{◌≡◌};
ghost use Rattle.ledger.specs.Numbers.{operation_number, access_number, event_numbers, numbers_of};
ghost use Rattle.ledger.specs.Given.{metered_numbers};

use crate::MeteredStep;
use pmp::Access;
use steps::{Event, Operation, Step};

fn operation_number(operation: Operation) -> u64
    ensures { result ≡ operation_number operation }
{
    match operation {
        Operation::Write => 1,
        Operation::Set => 2,
        Operation::Clear => 3,
        Operation::Read => 4,
    }
}

fn access_number(access: Access) -> u64
    ensures { result ≡ access_number access }
{
    match access {
        Access::Fetch => 14,
        Access::Load => 15,
        Access::Store => 16,
    }
}

fn event_numbers(event: Event) -> [u64; 3]
    ensures { result ≡ event_numbers event }
{
    match event {
        Event::Raise(cause, tval) => [5, cause, tval],
        Event::Lines(lines) => [6, lines, 0],
        Event::TakeInterrupt => [7, 0, 0],
        Event::Mret => [8, 0, 0],
        Event::Sret => [9, 0, 0],
        Event::Wfi => [10, 0, 0],
        Event::Ecall => [11, 0, 0],
        Event::Ebreak => [12, 0, 0],
        Event::Advance(target) => [13, target, 0],
        Event::Elapsed(cycles, retired) => [17, cycles, retired],
    }
}

// The number of a step and its two arguments; one that the step does not name is 0. The laws speak of the three by place, so they are an array.
pub fn numbers_of(step: Step) -> [u64; 3]
    ensures { result ≡ numbers_of step }
{
    match step {
        Step::Reset => [0, 0, 0],
        Step::Csr(operation, number, operand) => [operation_number(operation), number, operand],
        Step::Access(access, address, size) => [access_number(access), address, size],
        Step::Event(event) => event_numbers(event),
    }
}

// The numbers of a step with a ledger lent.
pub fn metered_numbers(step: MeteredStep) -> [u64; 3]
    ensures { result ≡ metered_numbers step }
{
    match step {
        MeteredStep::Step(plain) => numbers_of(plain),
        MeteredStep::Tenant(a, b) => [18, a, b],
    }
}
