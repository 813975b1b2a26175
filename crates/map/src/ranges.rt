// Where a map's ranges are read: in the map, or in a map's words as they lie.
ghost use Rattle.std.specs.Prelude.{◌≡◌, ◌<◌, List, length, get_or};
ghost use Rattle.map.specs.declared.Range.{Range};
ghost use Rattle.map.specs.Lookup.{ranges_in};
ghost use Rattle.map.specs.Ranges.{no_range};
ghost use Rattle.map.specs.MapWords.{map_of_words};

use crate::{Map, Range, count_read};

// A list of ranges, which are read by their numbers.
pub(crate) trait Ranges {
    ghost ranges: { Self → List Range };

    fn count(&self) -> usize
        ensures { result ≡ length (ranges self.now) };

    fn range(&self, number: usize) -> Range
        requires { number < length (ranges self.now) }
        ensures { result ≡ get_or (ranges self.now) number no_range };
}

impl Ranges for Map {
    ghost ranges = { ranges_in };

    fn count(&self) -> usize {
        count_read(self.count)
    }

    fn range(&self, number: usize) -> Range {
        self.ranges[number]
    }
}

// The words of a map, of any number. They are read as they lie, since a map made of them would be a copy.
#[derive(Clone, Copy)]
pub(crate) struct Words<'a> {
    pub(crate) words: &'a [u64],
}

impl Ranges for Words<'_> {
    ghost ranges = { λ w. ranges_in (map_of_words w.words.now) };

    // There are no more ranges than whole ones.
    #[tactic(auto, using(crate::proofs::MapWords::ranges_number))]
    fn count(&self) -> usize {
        match self.words {
            [] => 0,
            [count, rest @ ..] => count_read(*count).min(rest.len() / 3),
        }
    }

    // The first of them lies behind the count.
    #[tactic(auto, using(crate::proofs::MapWords::ranges_room, crate::proofs::MapWords::range_at))]
    fn range(&self, number: usize) -> Range {
        let at = 3 * number + 1;
        Range {
            first: self.words[at],
            last: self.words[at + 1],
            owner: self.words[at + 2],
        }
    }
}
