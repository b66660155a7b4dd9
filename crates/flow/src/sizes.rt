// What a counter is opened with.
ghost use Rattle.std.specs.Prelude.{◌≤◌};
ghost use Rattle.flow.specs.Limits.{most_places};

use crate::limits::MOST_PLACES;
use crate::refusal::Refusal;

// The number of places and the step, each within its limits.
#[derive(Debug, Clone, Copy, PartialEq, Eq, Hash)]
pub struct Sizes {
    pub places: usize,
    pub step: u32,
    ghost places_in: { (1 ≤ places) × (places ≤ most_places) },
    ghost step_in: { 1 ≤ step },
}

impl Sizes {
    ghost use Rattle.flow.specs.Openings.{Sized};

    // These places and this step, for a counter with this greatest step.
    pub fn of(places: usize, step: u32, greatest_step: u32) -> Result<Sizes, Refusal>
        ensures { Sized greatest_step places step result }
    {
        if !(1..=MOST_PLACES).contains(&places) {
            return Err(Refusal::PlacesOutOfRange);
        }
        if !(1..=greatest_step).contains(&step) {
            return Err(Refusal::StepOutOfRange);
        }
        Ok(Sizes { places, step })
    }
}
