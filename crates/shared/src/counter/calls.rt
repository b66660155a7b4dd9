// The calls of a shared-deduction counter.
ghost use Rattle.std.specs.Prelude.{◌≡◌, ◌-◌, ◌^◌, ◌<◌};
ghost use Rattle.std.proofs.Common.{rules};
ghost use Rattle.flow.specs.Answers.{told, Unchanged};
ghost use Rattle.flow.specs.Meanings.{add_answer, add_leaves};
ghost use Rattle.shared.specs.Places.{holds, count_of, any_empty, least};
ghost use Rattle.shared.specs.Shared.{shared_meaning, shared_opened};
ghost use Rattle.shared.specs.Laws.{shared_opens, shared_flushes, shared_adds, shared_heavy};

use crate::counter::SharedDeduction;
use crate::place::Place;
use crate::places;
use flow::code::Code;
use flow::counter::FrameCounter;
use flow::refusal::Refusal;
use flow::sizes::Sizes;
use flow::tally::Tally;

// The only step of such a counter.
const STEP: u32 = 1;

impl SharedDeduction {
    // A counter as opened with 1 and 1.
    pub fn new() -> SharedDeduction
        ensures opened { shared_meaning.model result ≡ shared_opened 1 }
        ensures sound { shared_meaning.sound (shared_meaning.model result) }
    {
        SharedDeduction::opened(Sizes { places: 1, step: 1 })
    }

    // The deduction.
    pub fn deduction(&self) -> u64
        ensures { result ≡ (shared_meaning.model self.now).deduction }
    {
        self.deduction
    }

    // The code's count. It is promised to be 0 where no place has the code; `places::find` tells the two apart.
    pub fn count(&self, code: Code) -> u64
        ensures { result ≡ count_of code (shared_meaning.model self.now).held }
    {
        places::find(self.held(), code).map_or(0, |held| held.count)
    }

    // Whether some place has the code.
    pub fn holds(&self, code: Code) -> bool
        ensures { result ≡ holds code (shared_meaning.model self.now).held }
    {
        places::find(self.held(), code).is_some()
    }

    // Whether some place is empty.
    pub fn has_room(&self) -> bool
        ensures { result ≡ any_empty (shared_meaning.model self.now).held }
    {
        places::any_empty(self.held())
    }

    // The least count. It is promised to be 2^64 - 1 where every place is empty: callers want the smaller of it and a weight.
    pub fn least_count(&self) -> u64
        ensures { result ≡ least (2 ^ 64 - 1) (shared_meaning.model self.now).held }
    {
        places::least_of(self.held(), u64::MAX)
    }

    // The places, in their order.
    pub fn held(&self) -> &[Place]
        ensures { result.now ≡ (shared_meaning.model self.now).held }
    {
        self.places.as_slice()
    }
}

impl FrameCounter for SharedDeduction {
    ghost meaning = { shared_meaning };

    ghost opens = { shared_opens };

    ghost flushes = { shared_flushes };

    ghost adds = { shared_adds };

    ghost heavy = { shared_heavy };

    ghost steps = { Prim.search rules };

    fn open(&mut self, places: usize, step: u32) -> Result<(), Refusal> {
        self.reset(Sizes::of(places, step, STEP)?);
        Ok(())
    }

    // In place: to make the counter anew writes all its cells.
    fn flush(&mut self) {
        self.places.as_mut_slice().fill(None);
        self.tally = Tally::new();
        self.deduction = 0;
    }

    fn add(&mut self, code: Code, weight: u32) -> Result<usize, Refusal>
        ensures answer { told result ≡ add_answer shared_meaning (shared_meaning.model self.old) code weight }
        ensures state { shared_meaning.model self.new ≡ add_leaves shared_meaning (shared_meaning.model self.old) code weight }
        ensures unchanged { Unchanged result self.old self.new }
    {
        let tally = self.tally.with(weight)?;
        let shared = places::add(self.places.as_mut_slice(), code, u64::from(weight));
        self.tally = tally;
        self.deduction += shared.unwrap_or(0);
        let places = self.places.len();
        Ok(shared.map_or(0, |_| places))
    }

    fn estimate(&self, code: Code) -> u64 {
        self.count(code) + self.deduction
    }

    fn places(&self) -> usize {
        self.places.len()
    }

    fn step(&self) -> u32 {
        STEP
    }

    fn packets(&self) -> u32
        ensures { result ≡ (shared_meaning.model self.now).packets }
    {
        self.tally.packets()
    }

    fn volume(&self) -> u64
        ensures { result ≡ (shared_meaning.model self.now).volume }
    {
        self.tally.volume()
    }

    fn greatest_step(&self) -> u32 {
        STEP
    }
}
