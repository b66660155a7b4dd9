// The steps of an add to the places of a shared-deduction counter, on a slice of them. Code and weight come as the counter's `add` has them.
ghost use Rattle.std.specs.Prelude.{◌≡◌, ◌+◌, ◌^◌, ◌<◌, ◌≤◌, ◌||◌, false, if◌then◌else◌, replicate, Some, None};
ghost use Rattle.std.specs.List.{find};
ghost use Rattle.flow.specs.Codes.{same};
ghost use Rattle.flow.specs.Limits.{most_places};
ghost use Rattle.shared.specs.Places.{held_in, holds, any_empty, raised, entered, least, less, lowered, shared_out, added, counted};

use crate::place::{Held, Place};
use arrayvec::ArrayVec;
use flow::code::Code;
use flow::limits::MOST_PLACES;

// So many empty places.
pub(crate) fn empty(places: usize) -> ArrayVec<Place, MOST_PLACES>
    requires { places ≤ most_places }
    ensures { result.items ≡ replicate places None }
{
    let mut cells = ArrayVec::from_array_in((), [None; MOST_PLACES]);
    cells.truncate(places);
    cells
}

// Makes so many empty places of these, in place: to make them anew writes all their cells.
pub(crate) fn reset(cells: &mut ArrayVec<Place, MOST_PLACES>, places: usize)
    requires { places ≤ most_places }
    ensures { cells.new.items ≡ replicate places None }
{
    cells.truncate(places);
    cells.as_mut_slice().fill(None);
    let count = cells.len();
    if count < places {
        // From a constant, at once: a push of each stores the length each time.
        let extended = cells.try_extend_from_slice(&[None; MOST_PLACES][count..places]);
        prove!(extended.is_ok());
    }
}

// The code with its count, where some place has it.
pub(crate) fn find(places: &[Place], code: Code) -> Option<Held>
    ensures { result ≡ find (λ x. same code x.code) (held_in places.now) }
{
    places
        .iter()
        .copied()
        .flatten()
        .find(|held| code == held.code)
}

// Raises the code's count, and says whether some place has the code.
// This and `enter` answer whether they did it, as a set's `insert` does.
// They are loops, since a proof knows nothing of the places once a write through `iter_mut().find(..)` is over.
fn raise(places: &mut [Place], code: Code, weight: u64) -> bool
    requires { counted places.old + weight < 2 ^ 64 }
    ensures places { places.new ≡ raised code weight places.old }
    ensures held { result ≡ holds code places.old }
    ensures unchanged { result ≡ false → places.new ≡ places.old }
{
    for place in places.iter_mut() {
        if let Some(held) = place
            && code == held.code
        {
            held.count += weight;
            return true;
        }
    }
    false
}

// Puts the code into the lowest empty place, and says whether there is one.
fn enter(places: &mut [Place], code: Code, count: u64) -> bool
    ensures places { places.new ≡ entered code count places.old }
    ensures empty { result ≡ any_empty places.old }
    ensures unchanged { result ≡ false → places.new ≡ places.old }
{
    for place in places.iter_mut() {
        if place.is_none() {
            *place = Some(Held { code, count });
            return true;
        }
    }
    false
}

// Whether some place is empty.
pub(crate) fn any_empty(places: &[Place]) -> bool
    ensures { result ≡ any_empty places.now }
{
    places.iter().any(Option::is_none)
}

// The smallest of the weight and the counts.
pub(crate) fn least_of(places: &[Place], weight: u64) -> u64
    ensures { result ≡ least weight places.now }
{
    places.iter().fold(weight, |least, place| match place {
        Some(held) => least.min(held.count),
        None => least,
    })
}

// The place with its count lowered, empty where the count is used up.
fn with_less(place: Place, by: u64) -> Place
    ensures { result ≡ less by place }
{
    place.filter(|held| held.count > by).map(|held| Held {
        count: held.count - by,
        ..held
    })
}

// Lowers every count.
fn lower(places: &mut [Place], by: u64)
    ensures { places.new ≡ lowered by places.old }
{
    for place in places.iter_mut() {
        *place = with_less(*place, by);
    }
}

// Lowers every count by the smallest of the weight and the counts, and puts what is left of the weight into the lowest empty place.
// Answers by how much every count fell.
fn share(places: &mut [Place], code: Code, weight: u64) -> u64
    ensures places { places.new ≡ shared_out places.old code weight }
    ensures rise { result ≡ least weight places.old }
{
    let rise = least_of(places, weight);
    lower(places, rise);
    if rise < weight {
        enter(places, code, weight - rise);
    }
    rise
}

// Adds to the code. Where no place has it or is empty, all share the weight, and the answer is by how much the deduction rises.
pub(crate) fn add(places: &mut [Place], code: Code, weight: u64) -> Option<u64>
    requires { counted places.old + weight < 2 ^ 64 }
    ensures places { places.new ≡ added places.old code weight }
    ensures rise { result ≡ (if holds code places.old || any_empty places.old then None else Some (least weight places.old)) }
{
    if raise(places, code, weight) || enter(places, code, weight) {
        return None;
    }
    Some(share(places, code, weight))
}
