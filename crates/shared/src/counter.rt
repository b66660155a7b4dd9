// The shared-deduction counter.
ghost use Rattle.std.specs.Prelude.{◌≡◌, ◌+◌, ◌*◌, ◌<◌, ◌≤◌, true};
ghost use Rattle.arrayvec.specs.ArrayVec.{array_vec_len};
ghost use Rattle.flow.specs.Limits.{most_places};
ghost use Rattle.shared.specs.Places.{counted, tidy};

use crate::place::Place;
use arrayvec::ArrayVec;
use flow::limits::MOST_PLACES;
use flow::tally::Tally;

pub mod calls;
mod opening;

// A counter whose places share one deduction.
#[derive(Drop)]
pub struct SharedDeduction {
    tally: Tally,
    deduction: u64,
    places: ArrayVec<Place, MOST_PLACES>,
    ghost some: { 0 < array_vec_len places },
    ghost most: { array_vec_len places ≤ most_places },
    ghost order: { tidy places.items ≡ true },
    ghost sum: { tally.volume ≡ counted places.items + (array_vec_len places + 1) * deduction },
}
