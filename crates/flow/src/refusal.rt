// Why a call is refused.
ghost use Rattle.std.specs.Prelude.{◌≡◌, Some};
ghost use Rattle.flow.specs.Refusals.{number, wording};

use std::error::Error;
use std::fmt;

// A refusal, by what is wrong, with the number by which it is known.
#[derive(Debug, Clone, Copy, PartialEq, Eq, Hash)]
pub enum Refusal {
    PlacesOutOfRange = 1,
    StepOutOfRange = 2,
    WeightOutOfRange = 3,
    CounterFull = 4,
    GreatestWeightOutOfRange = 5,
    WindowOutOfRange = 6,
    BlocksUnfit = 7,
    PlacesTooFew = 8,
    WeightZero = 9,
    WeightAbovePlan = 10,
    LevelTooLow = 11,
    ScratchTooShort = 12,
    TableTooShort = 13,
    NotAKey = 14,
    KindOrCommandUnknown = 15,
    TapeEnds = 16,
    NotTakenNow = 17,
    TextTooShort = 18,
    TapeTooLong = 19,
}

impl Refusal {
    // The number by which the refusal is known.
    pub fn number(self) -> u8
        ensures { result ≡ number self }
    {
        self as u8
    }

    // The refusal in words.
    pub fn words(self) -> &'static str
        ensures { result.now ≡ wording self }
    {
        match self {
            Refusal::PlacesOutOfRange => "the places are not from 1 to 256",
            Refusal::StepOutOfRange => "the step is not from 1 to the greatest step of the counter",
            Refusal::WeightOutOfRange => "the weight is not from 1 to 1048576",
            Refusal::CounterFull => "the counter has taken 16777216 packets since its last flush",
            Refusal::GreatestWeightOutOfRange => "the greatest weight is not from 1 to 1048576",
            Refusal::WindowOutOfRange => "the window is not from 1 to 16777216 packets",
            Refusal::BlocksUnfit => "the blocks do not divide the window",
            Refusal::PlacesTooFew => "the places are too few for the blocks and the step",
            Refusal::WeightZero => "the weight is 0",
            Refusal::WeightAbovePlan => "the weight is above the greatest weight of the plan",
            Refusal::LevelTooLow => "the level is below three times the unit",
            Refusal::ScratchTooShort => "the scratch is too short",
            Refusal::TableTooShort => "the table is shorter than the list",
            Refusal::NotAKey => "this is no key of the kind",
            Refusal::KindOrCommandUnknown => "the kind or the command is unknown",
            Refusal::TapeEnds => "the tape ends where a byte is due",
            Refusal::NotTakenNow => "this is not taken in the present state",
            Refusal::TextTooShort => "the text area is too short",
            Refusal::TapeTooLong => "the tape is too long",
        }
    }
}

impl fmt::Display for Refusal {
    ghost output = { λ e. Some (wording e) };

    fn fmt<W: fmt::Write>(&self, f: &mut fmt::Formatter<W>) -> fmt::Result {
        f.write_str(self.words())
    }
}

impl Error for Refusal {}
