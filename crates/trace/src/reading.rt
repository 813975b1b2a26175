// The reader of a trace, fed scraps of any length.
ghost use Rattle.std.specs.Prelude.{◌≡◌, ◌/◌, length};
ghost use Rattle.paging.specs.Memory.{memory_of};
ghost use Rattle.trace.specs.Feeding.{new_reader, left_count, FeedsWords, fed, feed_words};

use crate::feeding::{capped, handed_back, read};
use crate::{Fed, Progress, Reader};
use hart::Hart;
use map::Map;
use paging::Memory;

impl Reader {
    // A reader before the first byte of a trace.
    pub fn new() -> Reader
        ensures { result ≡ new_reader }
    {
        Reader {
            carried: [0u8; 59],
            count: 0,
            number: 0,
            stopped: false,
        }
    }

    // How many bytes are short of a record; 0 after a broken one.
    pub fn left(self) -> u64
        ensures { result ≡ left_count self.stopped self.count }
    {
        if self.stopped {
            return 0;
        }
        capped(self.count) as u64
    }

    // Feeds a scrap, on the words of a hart: each full record steps it, with the memory lent to it, and the answer is written as four words, from the
    // front of a slice. As many bytes are taken as there is room to answer, and from a broken record on every byte.
    pub fn feed_words(
        self,
        words: &mut [u64; 43],
        memory: Memory<'_>,
        scrap: &[u8],
        answers: &mut [u64],
    ) -> Progress
        ensures { FeedsWords (memory_of memory.entry) self scrap.now words.old answers.old result words.new answers.new }
    {
        let room = answers.len() / 4;
        read(self, words, memory, scrap, room, answers)
    }

    // The same by value: the hart and its map go along. The map is compiled once, where a step asked for it.
    pub fn feed(
        self,
        hart: Hart,
        map: Map,
        memory: Memory<'_>,
        scrap: &[u8],
        answers: &mut [u64],
    ) -> Fed
        ensures value { result ≡ fed (memory_of memory.entry) self hart map (length answers.old / 4) scrap.now }
        ensures answers_after { answers.new ≡ feed_words (memory_of memory.entry) self hart map scrap.now answers.old }
    {
        let mut words = <[u64; 43]>::from(hart.state);
        let next = self.feed_words(&mut words, memory, scrap, answers);
        let after = handed_back(words, next.remap, map);
        Fed {
            reader: next.reader,
            hart: after.hart,
            map: after.map,
            taken: next.taken,
            answered: next.filled / 4,
        }
    }
}
