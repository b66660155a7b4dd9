// The steps of an add to the entries of a Space-Saving counter, on a slice of them. Code and weight come as the counter's `add` has them.
// Each volume is the sum of the counts, which the counter has at hand.
ghost use Rattle.std.specs.Prelude.{◌≡◌, ◌+◌, ◌^◌, ◌<◌, ◌≤◌, length, replicate, position, ◌==◌};
ghost use Rattle.std.specs.List.{find};
ghost use Rattle.flow.specs.Limits.{most_places};
ghost use Rattle.fitting.specs.Entries.{vacant, counts, count_of, total, least, taker, added};

use crate::entry::{Entry, VACANT};
use arrayvec::ArrayVec;
use flow::code::Code;
use flow::limits::MOST_PLACES;

// So many entries that count no code yet.
pub(crate) fn vacant(places: usize) -> ArrayVec<Entry, MOST_PLACES>
    requires { places ≤ most_places }
    ensures { result.items ≡ replicate places vacant }
{
    let mut entries = ArrayVec::from_array_in((), [VACANT; MOST_PLACES]);
    entries.truncate(places);
    entries
}

// The entry that counts the code, where there is one.
fn find(entries: &[Entry], code: Code) -> Option<Entry>
    ensures { result ≡ find (counts code) entries.now }
{
    entries.iter().copied().find(|entry| entry.counts(code))
}

// The code's count, 0 where no entry counts it.
pub(crate) fn count_of(entries: &[Entry], code: Code) -> u64
    ensures { result ≡ count_of code entries.now }
{
    find(entries, code).map_or(0, |entry| entry.count)
}

// The least of the counts.
pub(crate) fn least_of(entries: &[Entry], volume: u64) -> u64
    requires { volume ≡ total entries.now }
    ensures { result ≡ least entries.now }
{
    entries
        .iter()
        .map(|entry| entry.count)
        .fold(volume, u64::min)
}

// The place of the entry that counts the code.
fn own_place(entries: &[Entry], code: Code) -> Option<usize>
    ensures { result ≡ position (counts code) entries.now }
{
    entries.iter().position(|entry| entry.counts(code))
}

// The place of the first entry with this count.
fn first_with(entries: &[Entry], count: u64) -> Option<usize>
    ensures { result ≡ position (λ e. e.count == count) entries.now }
{
    entries.iter().position(|entry| entry.count == count)
}

// The place of the entry that an add of the code goes to: the code's own, or else the first with the least count.
fn taker(entries: &[Entry], volume: u64, code: Code) -> usize
    requires some { 0 < length entries.now }
    requires whole { volume ≡ total entries.now }
    ensures { result ≡ taker code entries.now }
{
    match own_place(entries, code) {
        Some(own) => own,
        None => first_with(entries, least_of(entries, volume)).unwrap_or(0),
    }
}

// Adds to the code, and answers the place of the entry that took the weight.
pub(crate) fn add(entries: &mut [Entry], volume: u64, code: Code, weight: u64) -> usize
    requires some { 0 < length entries.old }
    requires few { length entries.old ≤ most_places }
    requires whole { volume ≡ total entries.old }
    requires fits { volume + weight < 2 ^ 64 }
    ensures entries { entries.new ≡ added entries.old code weight }
    ensures place { result ≡ taker code entries.old }
{
    let at = taker(entries, volume, code);
    entries[at] = entries[at].credited(code, weight);
    at
}
