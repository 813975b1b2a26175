// Records of a trace: the text of a step.
#![tactic(auto)]

ghost use Rattle.std.specs.Prelude.{◌≡◌, Some, is_some};
ghost use Rattle.records.specs.Records.{read_record, ignores_first, ignores_second, unused_are_zero, record_step, read_numbers};

use steps::Numbers;

// Reads a record: the words of its three lines, if all of them are in the form.
fn read_record(text: &[u8]) -> Option<Numbers>
    ensures { result ≡ read_record text.now }
{
    if text.len() != 60 {
        return None;
    }
    let step = lines::read_line(text, 0, b"step=");
    let a = lines::read_line(text, 22, b"a=");
    let b = lines::read_line(text, 41, b"b=");
    match (step, a, b) {
        (Some(step), Some(a), Some(b)) => Some(Numbers { step, a, b }),
        _ => None,
    }
}

fn ignores_first(step: u64) -> bool
    ensures { result ≡ ignores_first step }
{
    matches!(step, 0 | 7..=12 | 14)
}

fn ignores_second(step: u64) -> bool
    ensures { result ≡ ignores_second step }
{
    ignores_first(step) | matches!(step, 4 | 6 | 13)
}

#[tactic(auto, unfolding(crate::specs::Records::unused_are_zero))]
fn unused_are_zero(numbers: Numbers) -> bool
    ensures { result ≡ unused_are_zero numbers.step numbers.a numbers.b }
{
    let Numbers { step, a, b } = numbers;
    (!ignores_first(step) | (a == 0)) & (!ignores_second(step) | (b == 0))
}

// Whether numbers name a step, and its unused arguments are 0.
#[tactic(auto, unfolding(crate::specs::Records::record_step))]
fn name_step(numbers: Numbers) -> bool
    ensures { result ≡ is_some (record_step (Some numbers)) }
{
    unused_are_zero(numbers) && steps::decode(numbers).is_some()
}

// The numbers of a record's text, if it is a record and names a step.
#[tactic(auto, unfolding(crate::specs::Records::read_step, crate::specs::Records::read_numbers))]
pub fn read_numbers(text: &[u8]) -> Option<Numbers>
    ensures { result ≡ read_numbers text.now }
{
    read_record(text).filter(|numbers| name_step(*numbers))
}
