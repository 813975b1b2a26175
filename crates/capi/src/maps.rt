// Maps in slices of words.
ghost use Rattle.std.specs.Prelude.{◌≡◌, cond};
ghost use Rattle.state.specs.Slices.{loaded_pmp};
ghost use Rattle.hart.specs.Steps.{map_for};
ghost use Rattle.map.specs.MapWords.{map_words};

use map::Map;

// Writes a map as 100 words. Three writes for each range: in chunks the first word would have to be split off, and the ranges paired with them, which is no
// plainer.
pub(crate) fn store_map(map: Map, words: &mut [u64; 100])
    ensures { words.new ≡ map_words map }
{
    words[0] = map.count;
    for (k, range) in map.ranges.iter().enumerate() {
        let at = 3 * k + 1;
        words[at] = range.first;
        words[at + 1] = range.last;
        words[at + 2] = range.owner;
    }
}

// Writes the map of a hart's registers, where it is asked for.
pub(crate) fn renew(remap: bool, hart: &[u64], map: &mut [u64; 100])
    ensures { map.new ≡ cond remap (map_words (map_for (loaded_pmp hart.now))) map.old }
{
    if remap {
        store_map(hart::map_for(state::load_pmp(hart)), map);
    }
}
