// The semi-ordered counter.
ghost use Rattle.std.specs.Prelude.{◌+◌, ◌-◌, ◌*◌, ◌≤◌};
ghost use Rattle.semi.specs.Line.{total};

use crate::line::Line;
use flow::tally::Tally;

pub mod calls;

// A counter that keeps its entries in the order of their groups.
#[derive(Drop)]
pub struct SemiOrdered {
    line: Line,
    tally: Tally,
    ghost sum: { total line.sizes.step line.entries.items ≤ tally.volume + tally.packets * (line.sizes.step - 1) },
}
