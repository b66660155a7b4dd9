// What an estimate says of a true volume.
ghost use Rattle.std.specs.Prelude.{ℕ, ◌+◌, ◌<◌, ◌≤◌, ◌↔◌};
ghost use Rattle.frame.specs.Plans.{error_of};

use flow::limits::ERROR_UNITS;
use frame::layout::Layout;

// The least and the greatest true volume that an estimate allows.
#[derive(Clone, Copy)]
pub struct Interval {
    pub low: u64,
    pub high: u64,
}

impl Interval {
    // The true volumes that an estimate under a plan is not below, and exceeds by less than four units.
    pub fn of(estimate: u64, layout: &Layout) -> Interval
        ensures { (v : ℕ) → ((v ≤ estimate) × (estimate < v + error_of layout.now.plan)) ↔ ((result.low ≤ v) × (v ≤ result.high)) }
    {
        let width = ERROR_UNITS * layout.unit() - 1;
        Interval {
            low: estimate.saturating_sub(width),
            high: estimate,
        }
    }
}
