// How a code comes to its entry of a semi-ordered counter.
ghost use Rattle.std.specs.Prelude.{◌≡◌, Some};
ghost use Rattle.semi.specs.Semi.{semi_meaning};
ghost use Rattle.workings.specs.Workings.{way_of, way_text};

use flow::code::Code;
use flow::counter::FrameCounter;
use semi::{Entry, SemiOrdered};
use std::fmt;

// How a code comes to its entry. Its rules have nothing in common with those of the other kind.
#[derive(Clone, Copy)]
pub enum Way {
    Held,
    Enters,
    Evicts(Entry),
}

// The rule that applies, in words.
impl fmt::Display for Way {
    ghost output = { λ w. Some (way_text w) };

    fn fmt<W: fmt::Write>(&self, f: &mut fmt::Formatter<W>) -> fmt::Result {
        f.write_str(match self {
            Way::Held => "held: it counts from its entry",
            Way::Enters => "absent, and the line has room: it counts from 0",
            Way::Evicts(_) =>
                "absent, and the line is full: it counts from the first group and step - 1",
        })
    }
}

// How the code comes to its entry of the counter.
pub fn way_of(counter: &SemiOrdered, code: Code) -> Way
    ensures { result ≡ way_of (semi_meaning.model counter.now).places (semi_meaning.model counter.now).line code }
{
    if counter.holds(code) {
        return Way::Held;
    }
    let line = counter.line();
    if line.len() < counter.places() {
        return Way::Enters;
    }
    line.first()
        .map_or(Way::Enters, |first| Way::Evicts(*first))
}
