// The kinds of counter, by their names.
ghost use Rattle.std.specs.Prelude.{Some};
ghost use Rattle.inputs.specs.Kinds.{kind_text, KindRead};

use std::fmt;

// A kind of counter.
#[derive(Clone, Copy)]
pub enum CounterKind {
    SemiOrdered,
    SharedDeduction,
}

impl CounterKind {
    // The kind of this name.
    pub fn named(word: &[u8]) -> Option<CounterKind>
        ensures { KindRead word.now result }
    {
        if word == b"semi-ordered".as_slice() {
            Some(CounterKind::SemiOrdered)
        } else if word == b"shared-deduction".as_slice() {
            Some(CounterKind::SharedDeduction)
        } else {
            None
        }
    }
}

// The name of the kind.
impl fmt::Display for CounterKind {
    ghost output = { λ k. Some (kind_text k) };

    fn fmt<W: fmt::Write>(&self, f: &mut fmt::Formatter<W>) -> fmt::Result {
        f.write_str(match self {
            CounterKind::SemiOrdered => "semi-ordered",
            CounterKind::SharedDeduction => "shared-deduction",
        })
    }
}
