// What every frame counter promises.
ghost use Rattle.std.specs.Prelude.{◌≡◌, ◌≤◌, cond};
ghost use Rattle.flow.specs.Answers.{answered, refused, told, Unchanged};
ghost use Rattle.flow.specs.Limits.{most_places, most_step, outside};
ghost use Rattle.flow.specs.Meanings.{Meaning, Opens, Flushes, Adds, Heavy, Steps, open_answer, open_leaves, add_answer, add_leaves};

use crate::code::Code;
use crate::refusal::Refusal;

// A counter of flow volumes with a fixed number of places. Its calls refuse what is out of range, so they take any numbers.
// The meaning of a kind gives each counter a model, and says what a model tells and what the calls do to it.
// Soundness is a condition of the clauses and no part of a type: a type that carried it would ask more of the kinds that are fitted.
pub trait FrameCounter {
    ghost meaning: { Meaning Self };

    // Sets places and step and empties the counter.
    fn open(&mut self, places: usize, step: u32) -> Result<(), Refusal>
        ensures answer { told result ≡ open_answer meaning (meaning.model self.old) places step }
        ensures state { meaning.model self.new ≡ open_leaves meaning (meaning.model self.old) places step }
        ensures unchanged { Unchanged result self.old self.new };

    // Empties the counter.
    fn flush(&mut self)
        ensures state { meaning.model self.new ≡ meaning.flushed (meaning.model self.old) };

    // Counts a packet of this code and weight. Answers the passes.
    fn add(&mut self, code: Code, weight: u32) -> Result<usize, Refusal>
        ensures answer { meaning.sound (meaning.model self.old) → told result ≡ add_answer meaning (meaning.model self.old) code weight }
        ensures state { meaning.sound (meaning.model self.old) → meaning.model self.new ≡ add_leaves meaning (meaning.model self.old) code weight }
        ensures unchanged { Unchanged result self.old self.new };

    // The estimate of the code's volume.
    fn estimate(&self, code: Code) -> u64
        ensures { result ≡ meaning.estimate (meaning.model self.now) code };

    // How many places it was opened with.
    fn places(&self) -> usize
        ensures { result ≡ meaning.places (meaning.model self.now) };

    // The step it was opened with.
    fn step(&self) -> u32
        ensures { result ≡ meaning.step (meaning.model self.now) };

    // The packets since the last flush.
    fn packets(&self) -> u32
        ensures { meaning.sound (meaning.model self.now) → result ≡ meaning.packets (meaning.model self.now) };

    // Their total weight.
    fn volume(&self) -> u64
        ensures { meaning.sound (meaning.model self.now) → result ≡ meaning.volume (meaning.model self.now) };

    // The greatest step that an open takes.
    fn greatest_step(&self) -> u32
        ensures { result ≡ meaning.greatest (meaning.model self.now) };

    ghost opens: { Opens meaning };

    ghost flushes: { Flushes meaning };

    ghost adds: { Adds meaning };

    ghost heavy: { Heavy meaning };

    ghost steps: { Steps meaning };
}

// Opens the counter with this many places and step 1, which every kind takes.
pub fn open_by_one<C: FrameCounter>(counter: &mut C, places: usize) -> Result<(), Refusal>
    ensures answer { told result ≡ cond (outside 1 most_places places) (refused 1) (answered tt) }
    ensures state { C.meaning.model counter.new ≡ open_leaves C.meaning (C.meaning.model counter.old) places 1 }
    ensures unchanged { Unchanged result counter.old counter.new }
    ensures no_kind_takes_more { C.meaning.greatest (C.meaning.model counter.old) ≤ most_step }
{
    counter.open(places, 1)
}
