// A reader of a trace in slices: its 59 carried bytes, and its place in four words.
ghost use Rattle.std.specs.Prelude.{◌≡◌};
ghost use Rattle.capi.specs.Feeds.{is_place, reader_in, place_of};

use trace::Reader;

// Whether four words tell a place: the third says, by 0 or 1, whether a broken record ended the reading.
#[tactic(auto, unfolding(crate::specs::Feeds::is_place))]
pub(crate) fn is_place(place: &[u64; 4]) -> bool
    ensures { result ≡ is_place place.now }
{
    place[2] <= 1
}

// Reads a reader.
pub(crate) fn load_reader(carried: &[u8; 59], place: &[u64; 4]) -> Reader
    ensures { result ≡ reader_in carried.now place.now }
{
    Reader {
        carried: *carried,
        count: place[0],
        number: place[1],
        stopped: place[2] != 0,
    }
}

// Writes a reader, and how many answers were written.
pub(crate) fn store_reader(
    reader: Reader,
    answered: u64,
    carried: &mut [u8; 59],
    place: &mut [u64; 4],
)
    ensures carried_after { carried.new ≡ reader.carried }
    ensures place_after { place.new ≡ place_of reader answered }
{
    let bytes = reader.carried;
    *carried = bytes;
    *place = [
        reader.count,
        reader.number,
        u64::from(reader.stopped),
        answered,
    ];
}
