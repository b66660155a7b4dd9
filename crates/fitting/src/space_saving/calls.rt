// The calls of a Space-Saving counter.
ghost use Rattle.std.specs.Prelude.{◌≡◌};
ghost use Rattle.std.proofs.Common.{rules};
ghost use Rattle.flow.specs.Answers.{told, Unchanged};
ghost use Rattle.flow.specs.Meanings.{add_answer, add_leaves};
ghost use Rattle.fitting.specs.SpaceSaving.{space_meaning, space_opened};
ghost use Rattle.fitting.specs.Laws.{space_opens, space_flushes, space_adds, space_heavy};

use crate::entries;
use crate::entry::{Entry, VACANT};
use crate::space_saving::SpaceSaving;
use flow::code::Code;
use flow::counter::FrameCounter;
use flow::refusal::Refusal;
use flow::sizes::Sizes;
use flow::tally::Tally;

// The only step of such a counter.
const STEP: u32 = 1;

impl SpaceSaving {
    // A counter as opened with 1 and 1.
    pub fn new() -> SpaceSaving
        ensures opened { space_meaning.model result ≡ space_opened 1 }
        ensures sound { space_meaning.sound (space_meaning.model result) }
    {
        SpaceSaving::opened(Sizes { places: 1, step: 1 })
    }

    // A counter of these sizes that has counted nothing.
    fn opened(sizes: Sizes) -> SpaceSaving
        ensures { space_meaning.model result ≡ space_opened sizes.places }
    {
        SpaceSaving {
            tally: Tally::new(),
            entries: entries::vacant(sizes.places),
        }
    }
}

impl FrameCounter for SpaceSaving {
    ghost meaning = { space_meaning };

    ghost opens = { space_opens };

    ghost flushes = { space_flushes };

    ghost adds = { space_adds };

    ghost heavy = { space_heavy };

    ghost steps = { Prim.search rules };

    fn open(&mut self, places: usize, step: u32) -> Result<(), Refusal> {
        let sizes = Sizes::of(places, step, STEP)?;
        *self = SpaceSaving::opened(sizes);
        Ok(())
    }

    fn flush(&mut self) {
        self.entries.as_mut_slice().fill(VACANT);
        self.tally = Tally::new();
    }

    fn add(&mut self, code: Code, weight: u32) -> Result<usize, Refusal>
        ensures answer { told result ≡ add_answer space_meaning (space_meaning.model self.old) code weight }
        ensures state { space_meaning.model self.new ≡ add_leaves space_meaning (space_meaning.model self.old) code weight }
        ensures unchanged { Unchanged result self.old self.new }
    {
        let tally = self.tally.with(weight)?;
        let volume = self.tally.volume();
        let at = entries::add(self.entries.as_mut_slice(), volume, code, u64::from(weight));
        self.tally = tally;
        Ok(at + 1)
    }

    fn estimate(&self, code: Code) -> u64 {
        let entries = self.entries.as_slice();
        let least = entries::least_of(entries, self.tally.volume());
        entries::count_of(entries, code).max(least)
    }

    fn places(&self) -> usize {
        self.entries.len()
    }

    fn step(&self) -> u32 {
        STEP
    }

    fn packets(&self) -> u32
        ensures { result ≡ (space_meaning.model self.now).packets }
    {
        self.tally.packets()
    }

    fn volume(&self) -> u64
        ensures { result ≡ space_meaning.volume (space_meaning.model self.now) }
    {
        self.tally.volume()
    }

    fn greatest_step(&self) -> u32 {
        STEP
    }
}
