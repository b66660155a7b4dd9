// The counters' sheets, run.
ghost use Rattle.std.specs.Prelude.{◌≡◌};
ghost use Rattle.flow.specs.Meanings.{add_leaves};
ghost use Rattle.semi.specs.Semi.{semi_meaning};
ghost use Rattle.sheets.specs.CounterSheets.{C as FlowC};
ghost use Rattle.sheets.specs.Runs.{semi_answers, shared_answers};

use flow::code::Code;
use flow::counter::FrameCounter;
use semi::SemiOrdered;
use shared::SharedDeduction;

const FLOW_A: Code = Code { high: 0, low: 1 };

const FLOW_B: Code = Code { high: 0, low: 2 };

const FLOW_C: Code = Code { high: 0, low: 3 };

const FLOW_E: Code = Code { high: 0, low: 5 };

// The estimates of the semi-ordered sheet: after A 7 and B 25, then after C 3, then after C 30.
#[derive(Debug, Clone, Copy, PartialEq, Eq)]
pub struct SemiAnswers {
    pub first_a: u64,
    pub first_b: u64,
    pub first_absent: u64,
    pub second_c: u64,
    pub second_a: u64,
    pub third_c: u64,
}

// The deductions and estimates of the shared-deduction sheet: after A 5, B 3 and C 4, then after E 1.
#[derive(Debug, Clone, Copy, PartialEq, Eq)]
pub struct SharedAnswers {
    pub first_deduction: u64,
    pub first_a: u64,
    pub first_b: u64,
    pub first_c: u64,
    pub second_deduction: u64,
    pub second_a: u64,
    pub second_b: u64,
}

// The last packet of the semi-ordered sheet, C 30.
fn add_last(counter: &mut SemiOrdered)
    ensures { semi_meaning.model counter.new ≡ add_leaves semi_meaning (semi_meaning.model counter.old) FlowC 30 }
{
    let _ = counter.add(FLOW_C, 30);
}

// Runs the semi-ordered sheet.
pub(crate) fn semi_sheet() -> SemiAnswers
    ensures { result ≡ semi_answers }
{
    let mut counter = SemiOrdered::new();
    let _ = counter.open(2, 10);
    let _ = counter.add(FLOW_A, 7);
    let _ = counter.add(FLOW_B, 25);
    let first_a = counter.estimate(FLOW_A);
    let first_b = counter.estimate(FLOW_B);
    let first_absent = counter.estimate(FLOW_E);
    let _ = counter.add(FLOW_C, 3);
    let second_c = counter.estimate(FLOW_C);
    let second_a = counter.estimate(FLOW_A);
    add_last(&mut counter);
    SemiAnswers {
        first_a,
        first_b,
        first_absent,
        second_c,
        second_a,
        third_c: counter.estimate(FLOW_C),
    }
}

// Runs the shared-deduction sheet.
pub(crate) fn shared_sheet() -> SharedAnswers
    ensures { result ≡ shared_answers }
{
    let mut counter = SharedDeduction::new();
    let _ = counter.open(2, 1);
    let _ = counter.add(FLOW_A, 5);
    let _ = counter.add(FLOW_B, 3);
    let _ = counter.add(FLOW_C, 4);
    let first_deduction = counter.deduction();
    let first_a = counter.estimate(FLOW_A);
    let first_b = counter.estimate(FLOW_B);
    let first_c = counter.estimate(FLOW_C);
    let _ = counter.add(FLOW_E, 1);
    SharedAnswers {
        first_deduction,
        first_a,
        first_b,
        first_c,
        second_deduction: counter.deduction(),
        second_a: counter.estimate(FLOW_A),
        second_b: counter.estimate(FLOW_B),
    }
}
