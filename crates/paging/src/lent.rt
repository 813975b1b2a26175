// The lent memory: words that stand one behind the other from a physical address on.
ghost use Rattle.std.specs.Prelude.{◌≡◌};
ghost use Rattle.paging.specs.Memory.{memory_of, lawful, word_at};

use crate::{Memory, WalkFault};
use pmp::{NONE, TOP};

impl Memory<'_> {
    // Whether the words can stand at `base`. The room above it is counted in words, so that no sum wraps.
    pub fn is_lawful(self) -> bool
        ensures { result ≡ lawful (memory_of self.entry) }
    {
        if TOP < self.base {
            false
        } else {
            (self.base % 8 == 0) & (self.words.len() as u64 <= (TOP - self.base) / 8)
        }
    }

    // The word at an address. One outside the memory is denied by no entry.
    pub(crate) fn word_at(self, address: u64) -> Result<u64, WalkFault>
        ensures { result ≡ word_at (memory_of self.entry) address }
    {
        if address < self.base {
            return Err(WalkFault::Denied(NONE));
        }
        let number = ((address - self.base) / 8) as usize;
        if number < self.words.len() {
            Ok(self.words[number])
        } else {
            Err(WalkFault::Denied(NONE))
        }
    }
}
