// The worked sheets: proved of the rules and of the guarantee; those of the counters and one of the meter are run too.
#![tactic(auto)]

ghost use Rattle.std.specs.Prelude.{◌≡◌, List};
ghost use Rattle.semi.specs.Line.{Rising, placed, behind_last};
ghost use Rattle.semi.specs.declared.entry.Entry.{Entry as Item};
ghost use Rattle.sheets.specs.Readings.{AnswersTell, SaidTells, Sums, Shares};
ghost use Rattle.sheets.specs.Runs.{semi_answers, shared_answers, MeterRuns};
ghost use Rattle.sheets.specs.Sheets.{Sheets};

use crate::counting::{SemiAnswers, SharedAnswers, semi_sheet, shared_sheet};
use crate::metering::{MeterAnswers, meter_sheet};

pub mod counting;
pub mod metering;

// What the counters and the meter answer on their sheets.
#[derive(Debug, Clone, Copy, PartialEq, Eq)]
pub struct Answers {
    pub semi_ordered: SemiAnswers,
    pub shared_deduction: SharedAnswers,
    pub meter: MeterAnswers,
}

// Runs the sheets of the counters and of the meter. All sheets follow from the rules, and what is run answers as they say.
// The rule for the place of an entry says what it should: on a line in order, behind the last entry whose group is not above.
pub fn worked_sheets() -> Answers
    ensures sheets_stand { Sheets }
    ensures placed_behind_the_last { (e : Item) (line : List Item) → Rising line → placed e line ≡ behind_last e line }
    ensures answers_tell_the_ledger { AnswersTell }
    ensures what_is_said_tells_the_answer { SaidTells }
    ensures volumes_sum_weights { Sums }
    ensures blocks_share_the_window { Shares }
    ensures semi_ordered_runs { result.semi_ordered ≡ semi_answers }
    ensures shared_deduction_runs { result.shared_deduction ≡ shared_answers }
    ensures meter_runs { MeterRuns result.meter }
{
    Answers {
        semi_ordered: semi_sheet(),
        shared_deduction: shared_sheet(),
        meter: meter_sheet(),
    }
}
