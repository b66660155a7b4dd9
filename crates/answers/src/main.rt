// Runs lines of the worked sheets beside those that `worked_sheets` has, and compares what is answered with what the sheets say.
#![tactic(auto)]

ghost use Rattle.std.specs.Prelude.{◌≡◌, map, count_by};
ghost use Rattle.answers.specs.Comparisons.{agrees, runs, sheet};
ghost use Rattle.answers.specs.declared.comparison.Comparison.{Comparison as Compared};

mod calls;
mod comparison;

use crate::calls::{packet, plan};
use crate::comparison::{Comparison, Verdict};
use flow::key::FlowKey;
use flow::prefix::Prefix;
use frame::plan::Plan;
use sheets::metering::PLAN;

// The lines of the sheets, each run.
fn comparisons() -> [Comparison; 5]
    ensures runs { map (λ (c : Compared). c.run.now) result ≡ runs }
    ensures says { map (λ (c : Compared). c.says) result ≡ sheet }
    ensures answered { map (λ (c : Compared). c.answered) result ≡ sheet }
{
    let unfit = Plan {
        window: 10,
        blocks: 4,
        ..PLAN
    };
    [
        Comparison::of("W 10 with k 4", Verdict::Refused(7), &plan(unfit)),
        Comparison::of("weight 10", Verdict::Accepted, &packet(10)),
        Comparison::of("weight 11", Verdict::Refused(10), &packet(11)),
        Comparison::of("weight 0", Verdict::Refused(9), &packet(0)),
        Comparison::of(
            "prefix 10.0.0.1/8",
            Verdict::Refused(14),
            &Prefix::read(&[10, 0, 0, 1, 8]),
        ),
    ]
}

// How many lines agree.
fn agreeing(comparisons: &[Comparison]) -> usize
    ensures { result ≡ count_by agrees comparisons.now }
{
    comparisons
        .iter()
        .filter(|comparison| comparison.agrees())
        .count()
}

fn main(rt: HostRuntime) -> anyhow::Result<()> {
    let comparisons = comparisons();
    for comparison in &comparisons {
        println!(rt; "{comparison}")?;
    }
    let agreeing = agreeing(&comparisons);
    let all = comparisons.len();
    println!(rt; "{agreeing} of {all} agree")?;
    Ok(())
}
