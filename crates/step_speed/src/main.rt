// Steps a hart through a mix of steps, over and over, for the benchmark: `step_speed MIX COUNT`. Mix 1 has CSR steps, 2 traps and returns,
// 3 accesses, 4 writes to protection registers, 5 CSR steps on present and absent numbers, 6 translated accesses; any other number stands for all six, one
// after the other. A line for each mix gives a checksum of the answers and of the hart and map left.
#![tactic(auto)]

mod checksum;
mod mixes;
mod translated;

use checksum::{answered, left_by};
use hart::{Hart, Mapped};
use mixes::{access_steps, any_number_step, csr_steps, protection_steps, settings, trap_steps};
use paging::Memory;
use std::env::Env;
use std::io;
use steps::Step;
use translated::{TABLES, tables, translated_settings, translated_step};

// A hart from which a mix starts.
fn set_up(settings: &[Step]) -> Mapped {
    let none_lent = Memory {
        words: &[],
        base: 0,
    };
    let Mapped { mut hart, mut map } = Hart::reset(0);
    for setting in settings {
        let next = hart.step(map, none_lent, *setting);
        hart = next.hart;
        map = next.map;
    }
    Mapped { hart, map }
}

// Does `count` steps of a mix behind its settings, each given what the one before left and lent the page tables, and sums up.
fn step_through<F: Fn(u64) -> Step>(
    settings: &[Step],
    tables: &[u64],
    step_at: F,
    count: u64,
) -> u64
    requires { F.IsAlwaysCallable step_at }
{
    let lent = Memory {
        words: tables,
        base: TABLES,
    };
    let Mapped { mut hart, mut map } = set_up(settings);
    let mut sum: u64 = 0;
    for place in 0..count {
        let next = hart.step(map, lent, step_at(place));
        sum = answered(sum, next.answer);
        hart = next.hart;
        map = next.map;
    }
    left_by(sum, hart, map)
}

// Sixteen steps over and over, with no page tables.
fn repeated(steps: [Step; 16], count: u64) -> u64 {
    step_through(
        &settings(),
        &[],
        |place| steps[(place % 16) as usize],
        count,
    )
}

#[derive(Clone, Copy)]
enum Mix {
    Csr,
    Traps,
    Accesses,
    Protection,
    AnyNumber,
    Translated,
}

// The first has number 1.
const MIXES: [Mix; 6] = [
    Mix::Csr,
    Mix::Traps,
    Mix::Accesses,
    Mix::Protection,
    Mix::AnyNumber,
    Mix::Translated,
];

fn checksum_of(mix: Mix, count: u64) -> u64 {
    match mix {
        Mix::Csr => repeated(csr_steps(), count),
        Mix::Traps => repeated(trap_steps(), count),
        Mix::Accesses => repeated(access_steps(), count),
        Mix::Protection => repeated(protection_steps(), count),
        Mix::AnyNumber => step_through(&settings(), &[], any_number_step, count),
        Mix::Translated => step_through(&translated_settings(), &tables(), translated_step, count),
    }
}

// The number that the leading decimal digits of a text name, of which the first eighteen count. (`parse` takes no text with more behind them.)
fn number_in(text: &[u8]) -> u64 {
    let mut number: u64 = 0;
    for byte in text {
        if !byte.is_ascii_digit() || 99999999999999999 < number {
            break;
        }
        number = number * 10 + u64::from(*byte - b'0');
    }
    number
}

// One that is missing or has more than 20 bytes is read as 0.
fn argument(rt: HostRuntime, place: usize) -> u64 {
    let mut text = [0u8; 20];
    match rt.arg(place, &mut text) {
        Ok(length) => number_in(&text[..length]),
        Err(_) => 0,
    }
}

fn main(rt: HostRuntime) -> io::Result<()> {
    let chosen = argument(rt, 1);
    let count = argument(rt, 2);
    let all = chosen < 1 || 6 < chosen;
    for (place, mix) in MIXES.iter().enumerate() {
        let number = place as u64 + 1;
        if all || number == chosen {
            let checksum = checksum_of(*mix, count);
            println!(rt; "mix {number} steps {count} checksum {checksum:016x}")?;
        }
    }
    Ok(())
}
