// Marks with the offsets of their packets.
ghost use Rattle.std.specs.Prelude.{◌≤◌, length};
ghost use Rattle.flow.specs.Limits.{most_marks};

use arrayvec::ArrayVec;
use flow::code::Code;
use flow::limits::MOST_MARKS;

pub mod keeping;

// A mark: the flow, and the offset in its frame of the packet that made it.
#[derive(Debug, Clone, Copy, PartialEq, Eq, Hash, Default)]
pub struct Mark {
    pub code: Code,
    pub offset: u32,
}

// The marks of the previous frame, `previous` of them, and then those of the present one, the oldest first.
// Both frames share one limit, so they share one list.
#[derive(Drop)]
pub struct Marks {
    marks: ArrayVec<Mark, MOST_MARKS>,
    previous: usize,
    ghost few: { length marks.items ≤ most_marks },
    ghost split: { previous ≤ length marks.items },
}
