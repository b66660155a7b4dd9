// Why a line of an input is not carried out.
ghost use Rattle.std.specs.Prelude.{◌≡◌};
ghost use Rattle.inputs.specs.declared.failure.Failure.TheVariants.{Refused as IsRefused};
ghost use Rattle.inputs.specs.Failures.{failure_text};

use flow::refusal::Refusal;
use std::error::Error;
use std::fmt;

// A line that cannot be read, for a reason of the program's own, or whose call is refused.
#[derive(Debug, Clone, Copy)]
pub enum Failure<U> {
    Unread(U),
    Refused(Refusal),
}

impl<U> From<Refusal> for Failure<U> {
    ghost from_gives = { λ refusal f. f ≡ IsRefused refusal };

    fn from(refusal: Refusal) -> Failure<U> {
        Failure::Refused(refusal)
    }
}

impl<U: fmt::Display> fmt::Display for Failure<U> {
    ghost output = { λ f. failure_text U.output f };

    fn fmt<W: fmt::Write>(&self, f: &mut fmt::Formatter<W>) -> fmt::Result {
        match self {
            Failure::Unread(unread) => write!(f, "Not read: {unread}."),
            Failure::Refused(refusal) => {
                let number = refusal.number();
                write!(f, "Refused ({number}): {refusal}.")
            }
        }
    }
}

impl<U: fmt::Display + fmt::Debug + Drop> Error for Failure<U> {}
