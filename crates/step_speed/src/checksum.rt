// A checksum of answers, harts and maps.
use hart::Hart;
use map::Map;
use steps::Answer;

// Each word counts by its value and by its place.
fn summed(sum: u64, word: u64) -> u64 {
    ((sum << 1) | (sum >> 63)).wrapping_add(word)
}

// An answer counts by the sum of its four words.
fn answer_number(answer: Answer) -> u64 {
    let [kind, value, level, entry] = <[u64; 4]>::from(answer);
    kind.wrapping_add(value)
        .wrapping_add(level)
        .wrapping_add(entry)
}

pub(crate) fn answered(sum: u64, answer: Answer) -> u64 {
    summed(sum, answer_number(answer))
}

// The words of the hart, and the ranges of the map with their owners.
pub(crate) fn left_by(start: u64, hart: Hart, map: Map) -> u64 {
    let mut sum = start;
    for word in <[u64; 43]>::from(hart.state) {
        sum = summed(sum, word);
    }
    sum = summed(sum, map.count);
    for range in &map.ranges[..map::count_read(map.count)] {
        sum = summed(summed(summed(sum, range.first), range.last), range.owner);
    }
    sum
}
