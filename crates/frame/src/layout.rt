// A plan that was accepted.
ghost use Rattle.std.specs.Prelude.{◌≡◌, ◌≤◌};
ghost use Rattle.flow.specs.Limits.{most_weight, most_unit};
ghost use Rattle.frame.specs.Plans.{block_of, unit_of};

use crate::plan::Plan;

pub mod rules;

// An accepted plan, with the packets of a block and the unit of marks.
#[derive(Debug, Clone, Copy, PartialEq, Eq, Hash)]
pub struct Layout {
    plan: Plan,
    block: u32,
    unit: u64,
    ghost block_is: { block ≡ block_of plan },
    ghost unit_is: { unit ≡ unit_of plan },
    ghost some: { 1 ≤ block },
    ghost counts: { 1 ≤ unit },
    ghost small: { unit ≤ most_unit },
    ghost wide: { 1 ≤ plan.window },
    ghost light: { plan.most ≤ most_weight },
}
