// Modes by their numbers.
ghost use Rattle.std.specs.Prelude.{◌≡◌};
ghost use Rattle.pmp.specs.Number.{mode_of, ReadsMode};

use crate::Mode;

// The mode of a number: 0 is U, 1 is S, and any other M.
pub fn mode_of(number: u64) -> Mode
    ensures { result ≡ mode_of number }
{
    match number {
        0 => Mode::User,
        1 => Mode::Supervisor,
        _ => Mode::Machine,
    }
}

// A number that is that of no mode.
#[derive(Clone, Copy, Debug, PartialEq, Eq)]
pub struct UnknownMode(pub u64);

// The mode of a number that is that of one.
impl TryFrom<u64> for Mode {
    type Error = UnknownMode;

    ghost try_from_gives = { ReadsMode };

    fn try_from(number: u64) -> Result<Mode, UnknownMode> {
        match number {
            0 => Ok(Mode::User),
            1 => Ok(Mode::Supervisor),
            3 => Ok(Mode::Machine),
            _ => Err(UnknownMode(number)),
        }
    }
}
