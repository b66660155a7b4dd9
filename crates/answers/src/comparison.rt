// What a sheet says of a call, beside what the call answers.
ghost use Rattle.std.specs.Prelude.{◌≡◌, Some, IsTrue, ◌↔◌};
ghost use Rattle.flow.specs.Answers.{told};
ghost use Rattle.answers.specs.Comparisons.{verdict_of, verdict_text, agrees, word, line};

use flow::refusal::Refusal;
use std::fmt;

// Whether a call was accepted, or the number that it was refused with.
#[derive(Clone, Copy, PartialEq, Eq)]
pub enum Verdict {
    Accepted,
    Refused(u8),
}

impl Verdict {
    // The verdict of a call that answered this.
    pub(crate) fn of<T>(answered: &Result<T, Refusal>) -> Verdict
        ensures { result ≡ verdict_of (told answered.now) }
    {
        match answered {
            Ok(_) => Verdict::Accepted,
            Err(refusal) => Verdict::Refused(refusal.number()),
        }
    }
}

impl fmt::Display for Verdict {
    ghost output = { λ v. Some (verdict_text v) };

    fn fmt<W: fmt::Write>(&self, f: &mut fmt::Formatter<W>) -> fmt::Result {
        match self {
            Verdict::Accepted => write!(f, "accepted"),
            Verdict::Refused(number) => write!(f, "refused with {number}"),
        }
    }
}

// A line of a sheet: what was run, what the sheet says, and what was answered.
#[derive(Clone, Copy)]
pub struct Comparison {
    pub run: &'static str,
    pub says: Verdict,
    pub answered: Verdict,
}

impl Comparison {
    // The line of what was run, with the verdict of the sheet beside that of the call.
    pub(crate) fn of<T>(
        run: &'static str,
        says: Verdict,
        answered: &Result<T, Refusal>,
    ) -> Comparison
        ensures run { result.run.now ≡ run.now }
        ensures says { result.says ≡ says }
        ensures answered { result.answered ≡ verdict_of (told answered.now) }
    {
        Comparison {
            run,
            says,
            answered: Verdict::of(answered),
        }
    }

    // Whether the answer is what the sheet says.
    pub(crate) fn agrees(&self) -> bool
        ensures agrees { result ≡ agrees self.now }
        ensures exactly { IsTrue result ↔ (self.now.answered ≡ self.now.says) }
    {
        self.answered == self.says
    }

    // The word for that.
    fn word(&self) -> &'static str
        ensures { result.now ≡ word self.now }
    {
        if self.agrees() { "agrees" } else { "DIFFERS" }
    }
}

impl fmt::Display for Comparison {
    ghost output = { λ c. Some (line c) };

    fn fmt<W: fmt::Write>(&self, f: &mut fmt::Formatter<W>) -> fmt::Result {
        let run = self.run;
        let says = self.says;
        let answered = self.answered;
        let word = self.word();
        write!(f, "{run}: {answered}, the sheet says {says}: {word}")
    }
}
