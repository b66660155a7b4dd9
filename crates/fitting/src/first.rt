// Code that is written once and serves every counter.
ghost use Rattle.std.specs.Prelude.{◌≡◌};
ghost use Rattle.flow.specs.Answers.{told};
ghost use Rattle.flow.specs.Meanings.{open_answer, open_leaves};
ghost use Rattle.fitting.specs.Firsts.{first_answer, first_leaves};

use flow::code::Code;
use flow::counter::FrameCounter;
use flow::refusal::Refusal;

// Makes the counter ready for a first packet.
fn prepare<C: FrameCounter>(counter: &mut C, places: usize, step: u32) -> Result<(), Refusal>
    ensures answer { told result ≡ open_answer C.meaning (C.meaning.model counter.old) places step }
    ensures state { C.meaning.model counter.new ≡ open_leaves C.meaning (C.meaning.model counter.old) places step }
{
    counter.open(places, step)
}

// Opens the counter, counts one packet and answers the estimate of its code.
// It is the weight of the packet, neither less nor more, whatever the kind of counter.
pub fn first_estimate<C: FrameCounter>(
    counter: &mut C,
    places: usize,
    step: u32,
    code: Code,
    weight: u32,
) -> Result<u64, Refusal>
    ensures answer { told result ≡ first_answer (C.meaning.greatest (C.meaning.model counter.old)) places step weight }
    ensures state { C.meaning.model counter.new ≡ first_leaves C.meaning (C.meaning.model counter.old) places step code weight }
{
    prepare(counter, places, step)?;
    counter.add(code, weight)?;
    Ok(counter.estimate(code))
}
