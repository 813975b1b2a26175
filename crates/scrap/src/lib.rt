// A scrap of a trace together with the place of the next record in it. `record_at` parses the record there; the functions over a `Scrap` are thin.
#![tactic(auto)]

ghost use Rattle.std.specs.Prelude.{◌≡◌};
ghost use Rattle.scrap.specs.Places.{record_at};

use steps::Numbers;

// The bytes that were lent, and the place of the next record in them.
#[derive(Clone, Copy)]
pub struct Scrap<'a> {
    pub bytes: &'a [u8],
    pub at: usize,
}

// What is read at a place: the numbers of a record, if it is one and they name a step, and the place behind it.
#[derive(Clone, Copy, Debug, PartialEq, Eq)]
pub struct Parsed {
    pub numbers: Option<Numbers>,
    pub at: usize,
}

impl<'a> Scrap<'a> {
    pub fn new(bytes: &'a [u8], at: usize) -> Scrap<'a>
        ensures { (result.bytes ≡ bytes.entry) × (result.at ≡ at) }
    {
        Scrap { bytes, at }
    }

    // The record at the scrap's place, and the place behind it.
    pub fn next(self) -> Parsed
        ensures { result ≡ record_at self.entry.bytes.now self.entry.at }
    {
        record_at(self.bytes, self.at)
    }
}

// The record that begins at a place. Where fewer than 60 bytes are there, none is named, and the place stays.
#[tactic(auto, using(crate::proofs::PlaceLaws::record_there, crate::proofs::PlaceLaws::record_missing))]
pub fn record_at(bytes: &[u8], at: usize) -> Parsed
    ensures { result ≡ record_at bytes.now at }
{
    if bytes.len() < 60 || bytes.len() - 60 < at {
        return Parsed { numbers: None, at };
    }
    let behind = at + 60;
    Parsed {
        numbers: records::read_numbers(&bytes[at..behind]),
        at: behind,
    }
}

// The same for bytes and a place apart, for a loop over records.
pub fn read(bytes: &[u8], at: usize) -> Parsed
    ensures { result ≡ record_at bytes.now at }
{
    Scrap::new(bytes, at).next()
}
