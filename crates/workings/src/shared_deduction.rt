// How a code comes to its count in a shared-deduction counter, and who loses a place.
ghost use Rattle.std.specs.Prelude.{◌≡◌, Some};
ghost use Rattle.shared.specs.Shared.{shared_meaning};
ghost use Rattle.workings.specs.Workings.{shared_way_of, shared_way_text, lost};

use flow::code::Code;
use flow::counter::FrameCounter;
use shared::{Place, SharedDeduction};
use std::fmt;

// How a code comes to its count. Its rules have nothing in common with those of the other kind.
#[derive(Clone, Copy)]
pub enum Way {
    Held,
    Takes,
    Shares,
}

// The rule that applies, in words.
impl fmt::Display for Way {
    ghost output = { λ w. Some (shared_way_text w) };

    fn fmt<W: fmt::Write>(&self, f: &mut fmt::Formatter<W>) -> fmt::Result {
        f.write_str(match self {
            Way::Held => "held: its count rises",
            Way::Takes => "absent, and a place is empty: it takes the lowest",
            Way::Shares => "absent, and no place is empty: all counts fall",
        })
    }
}

// How the code comes to its count in the counter.
pub fn way_of(counter: &SharedDeduction, code: Code) -> Way
    ensures { result ≡ shared_way_of (shared_meaning.model counter.now).held code }
{
    if counter.holds(code) {
        return Way::Held;
    }
    if counter.has_room() {
        return Way::Takes;
    }
    Way::Shares
}

// The code that had its place before and has it no more.
pub fn lost(old: &Place, new: &Place) -> Option<Code>
    ensures { result ≡ lost old.now new.now }
{
    match (old, new) {
        (Some(held), Some(next)) if held.code == next.code => None,
        (place, _) => place.map(|held| held.code),
    }
}
