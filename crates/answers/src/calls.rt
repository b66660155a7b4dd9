// The calls of the sheets, each on a new meter over a semi-ordered counter.
ghost use Rattle.std.specs.Prelude.{◌≡◌};
ghost use Rattle.flow.specs.Answers.{told};
ghost use Rattle.semi.specs.Semi.{semi_meaning};
ghost use Rattle.meter.specs.States.{plan_answer, packet_answer};
ghost use Rattle.sheets.specs.CounterSheets.{A};
ghost use Rattle.sheets.specs.MeterSheets.{unplanned_state, planned_state};

use flow::account::Account;
use flow::refusal::Refusal;
use frame::plan::Plan;
use meter::meter::Meter;
use semi::SemiOrdered;
use sheets::metering::PLAN;

// What a plan is answered.
pub(crate) fn plan(plan: Plan) -> Result<(), Refusal>
    ensures { told result ≡ plan_answer semi_meaning unplanned_state plan }
{
    Meter::new(SemiOrdered::new()).plan(plan)
}

// What the first packet under the sheet's plan is answered, by its weight.
pub(crate) fn packet(weight: u32) -> Result<usize, Refusal>
    ensures { told result ≡ packet_answer semi_meaning planned_state A weight }
{
    let key = Account::new(1)?;
    let mut meter = Meter::new(SemiOrdered::new());
    meter.plan(PLAN)?;
    meter.packet(&key, weight)
}
