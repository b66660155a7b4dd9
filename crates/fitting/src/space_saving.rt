// The Space-Saving counter: n entries, the least of which goes to a code that has none.
ghost use Rattle.std.specs.Prelude.{◌≡◌, ◌<◌, true};
ghost use Rattle.arrayvec.specs.ArrayVec.{array_vec_len};
ghost use Rattle.fitting.specs.Entries.{total, apart};

use crate::entry::Entry;
use arrayvec::ArrayVec;
use flow::limits::MOST_PLACES;
use flow::tally::Tally;

pub mod calls;

// A counter with as many entries as it has places. The counts sum to the volume.
#[derive(Drop)]
pub struct SpaceSaving {
    tally: Tally,
    entries: ArrayVec<Entry, MOST_PLACES>,
    ghost some: { 0 < array_vec_len entries },
    ghost distinct: { apart entries.items ≡ true },
    ghost whole: { tally.volume ≡ total entries.items },
}
