// The words that ask for a run, and what they ask for.
ghost use Rattle.std.specs.Prelude.{◌≡◌, MatchOption, map};
ghost use Rattle.std.specs.String.{string_bytes};
ghost use Rattle.streams.specs.Words.{KindGiven, ArgumentsRead};
ghost use Rattle.inputs.specs.declared.kind.CounterKind.{CounterKind as Kind};

use crate::stream::Stream;
use frame::plan::Plan;
use inputs::kind::CounterKind;
use text::{number, small_number};

// The kind that the words behind the numbers give: the semi-ordered where there is none.
fn kind_given(words: &[String]) -> Option<CounterKind>
    ensures { MatchOption result ((k : Kind) → KindGiven (map string_bytes words.now) k → ⊥) (λ k. KindGiven (map string_bytes words.now) k) }
{
    match words {
        [] => Some(CounterKind::SemiOrdered),
        [word] => CounterKind::named(word.as_bytes()),
        _ => None,
    }
}

// The plan of the meter, its kind of counter, and the stream that it meters.
#[derive(Clone, Copy)]
pub struct Arguments {
    pub plan: Plan,
    pub packets: u64,
    pub flows: u64,
    pub seed: u64,
    pub kind: CounterKind,
}

impl Arguments {
    // The arguments that these words give: eight numbers, and the kind of counter where it is not the semi-ordered.
    pub fn read(words: &[String]) -> Option<Arguments>
        ensures { ArgumentsRead (map string_bytes words.now) result }
    {
        let [
            places,
            step,
            most,
            window,
            blocks,
            packets,
            flows,
            seed,
            kind @ ..,
        ] = words
        else {
            return None;
        };
        Some(Arguments {
            plan: Plan {
                places: usize::try_from(small_number(places.as_bytes())?).unwrap_or(usize::MAX),
                step: small_number(step.as_bytes())?,
                most: small_number(most.as_bytes())?,
                window: small_number(window.as_bytes())?,
                blocks: small_number(blocks.as_bytes())?,
            },
            packets: number(packets.as_bytes())?,
            flows: number(flows.as_bytes())?,
            seed: number(seed.as_bytes())?,
            kind: kind_given(kind)?,
        })
    }

    // The stream of the run.
    pub fn stream(&self) -> Stream
        ensures { result ≡ record { seed = self.now.seed; flows = self.now.flows; most = self.now.plan.most } }
    {
        Stream {
            seed: self.seed,
            flows: self.flows,
            most: self.plan.most,
        }
    }
}
