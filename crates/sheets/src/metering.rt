// The meter's sheet, run.
ghost use Rattle.std.specs.Prelude.{◌≡◌};
ghost use Rattle.flow.specs.Answers.{told};
ghost use Rattle.flow.specs.Limits.{least_scratch};
ghost use Rattle.semi.specs.Semi.{semi_meaning};
ghost use Rattle.meter.specs.States.{plan_answer, list_answer, count_of, table_leaves};
ghost use Rattle.meter.specs.Meters.{state_of};
ghost use Rattle.sheets.specs.MeterSheets.{plan_of_step, unplanned_state};
ghost use Rattle.sheets.specs.Runs.{MeterRuns, before};

use flow::account::Account;
use flow::code::Code;
use flow::key::FlowKey;
use flow::limits::LEAST_SCRATCH;
use flow::refusal::Refusal;
use frame::plan::Plan;
use meter::meter::Meter;
use meter::record::Record;
use semi::SemiOrdered;

// The plan of the sheet.
pub const PLAN: Plan = Plan {
    places: 3,
    step: 1,
    most: 10,
    window: 4,
    blocks: 2,
};

// The table that each list is lent. What no list writes has to stay.
const TABLE: [Record; 2] = [
    Record {
        code: Code { high: 0, low: 8 },
        estimate: 1,
    },
    Record {
        code: Code { high: 0, low: 9 },
        estimate: 2,
    },
];

// What the call of a list answers, and the table then.
#[derive(Debug, Clone, Copy, PartialEq, Eq)]
pub struct Listed {
    pub count: Result<usize, Refusal>,
    pub table: [Record; 2],
}

// What the meter answers on its sheet.
#[derive(Debug, Clone, Copy, PartialEq, Eq)]
pub struct MeterAnswers {
    // the plan with step 5, and with step 6
    pub step_five: Result<(), Refusal>,
    pub step_six: Result<(), Refusal>,
    // the estimates of A and B before any packet
    pub fresh: [Result<u64, Refusal>; 2],
    // the estimate of A after each of four packets A 10
    pub rising: [Result<u64, Refusal>; 4],
    // the estimates of A and B after B 10
    pub last: [Result<u64, Refusal>; 2],
    // the passes of the five packets
    pub passes: [Result<usize, Refusal>; 5],
    // the lists at the end
    pub level_60: Listed,
    pub level_61: Listed,
    pub level_59: Listed,
}

// The account of this number, as a key.
fn account(number: u32) -> Account
    ensures { result.number ≡ number }
{
    Account::new(u64::from(number)).unwrap()
}

// What a new meter answers to the plan of the sheet with this step.
fn plan_with_step(step: u32) -> Result<(), Refusal>
    ensures { told result ≡ plan_answer semi_meaning unplanned_state (plan_of_step step) }
{
    Meter::new(SemiOrdered::new()).plan(Plan { step, ..PLAN })
}

// The list of a meter at a level.
fn list_at(meter: &Meter<SemiOrdered>, level: u64) -> Listed
    ensures count { told result.count ≡ count_of (list_answer semi_meaning (state_of semi_meaning meter.now) level least_scratch 2) }
    ensures table { result.table ≡ table_leaves (list_answer semi_meaning (state_of semi_meaning meter.now) level least_scratch 2) before }
{
    let mut table = TABLE;
    let count = meter.list(level, &mut [0; LEAST_SCRATCH], &mut table);
    Listed { count, table }
}

// Runs the meter's sheet.
pub(crate) fn meter_sheet() -> MeterAnswers
    ensures { MeterRuns result }
{
    let (a, b) = (account(1), account(2));
    let mut meter = Meter::new(SemiOrdered::new());
    let _ = meter.plan(PLAN);
    let fresh = [meter.estimate(&a), meter.estimate(&b)];
    let first = meter.packet(&a, 10);
    let once = meter.estimate(&a);
    let second = meter.packet(&a, 10);
    let twice = meter.estimate(&a);
    let third = meter.packet(&a, 10);
    let thrice = meter.estimate(&a);
    let fourth = meter.packet(&a, 10);
    let four_times = meter.estimate(&a);
    let fifth = meter.packet(&b, 10);
    MeterAnswers {
        step_five: plan_with_step(5),
        step_six: plan_with_step(6),
        fresh,
        rising: [once, twice, thrice, four_times],
        last: [meter.estimate(&a), meter.estimate(&b)],
        passes: [first, second, third, fourth, fifth],
        level_60: list_at(&meter, 60),
        level_61: list_at(&meter, 61),
        level_59: list_at(&meter, 59),
    }
}
