// The calls of a semi-ordered counter.
ghost use Rattle.std.specs.Prelude.{◌≡◌, ◌-◌, ◌/◌, ◌<◌, ◌≤◌, IfOk};
ghost use Rattle.flow.specs.Answers.{told, Unchanged};
ghost use Rattle.flow.specs.Limits.{most_step};
ghost use Rattle.flow.specs.Meanings.{add_answer, add_leaves};
ghost use Rattle.semi.specs.Line.{holds, start};
ghost use Rattle.semi.specs.Semi.{semi_meaning, semi_opened};
ghost use Rattle.semi.specs.Laws.{semi_adds, semi_heavy};
ghost use Rattle.std.proofs.Common.{rules};

use crate::counter::SemiOrdered;
use crate::entry::Entry;
use crate::line::Line;
use flow::code::Code;
use flow::counter::FrameCounter;
use flow::limits::MOST_STEP;
use flow::refusal::Refusal;
use flow::sizes::Sizes;
use flow::tally::Tally;

impl SemiOrdered {
    // A counter as opened with 1 and 1.
    pub fn new() -> SemiOrdered
        ensures opened { semi_meaning.model result ≡ semi_opened 1 1 }
        ensures sound { semi_meaning.sound (semi_meaning.model result) }
    {
        SemiOrdered {
            line: Line::smallest(),
            tally: Tally::new(),
        }
    }

    // Empties the counter, with these sizes.
    fn reset(&mut self, sizes: Sizes)
        requires { sizes.step ≤ most_step }
        ensures { semi_meaning.model self.new ≡ semi_opened sizes.places sizes.step }
    {
        self.line.reset(sizes);
        self.tally = Tally::new();
    }

    // The sizes of the counter.
    fn sizes(&self) -> Sizes
        ensures { result ≡ self.now.line.sizes }
    {
        self.line.sizes()
    }

    // The line, lowest group first.
    pub fn line(&self) -> &[Entry]
        ensures { result.now ≡ (semi_meaning.model self.now).line }
    {
        self.line.entries()
    }

    // Whether the line has an entry of the code.
    pub fn holds(&self, code: Code) -> bool
        ensures { result ≡ holds code (semi_meaning.model self.now).line }
    {
        self.line.holds(code)
    }

    // What the code counts from: its own entry, or the one with which it would enter.
    pub fn start(&self, code: Code) -> Entry
        ensures { result ≡ start (semi_meaning.model self.now).places (semi_meaning.model self.now).step (semi_meaning.model self.now).line code }
    {
        self.line.start(code)
    }
}

impl FrameCounter for SemiOrdered {
    ghost meaning = { semi_meaning };

    ghost opens = { Prim.search rules };

    ghost flushes = { Prim.search rules };

    ghost adds = { semi_adds };

    ghost heavy = { semi_heavy };

    ghost steps = { Prim.search rules };

    fn open(&mut self, places: usize, step: u32) -> Result<(), Refusal> {
        self.reset(Sizes::of(places, step, MOST_STEP)?);
        Ok(())
    }

    fn flush(&mut self) {
        self.reset(self.sizes());
    }

    fn add(&mut self, code: Code, weight: u32) -> Result<usize, Refusal>
        ensures answer { told result ≡ add_answer semi_meaning (semi_meaning.model self.old) code weight }
        ensures state { semi_meaning.model self.new ≡ add_leaves semi_meaning (semi_meaning.model self.old) code weight }
        ensures unchanged { Unchanged result self.old self.new }
        ensures few_passes { IfOk result (λ p. p ≤ (weight - 1) / (semi_meaning.model self.old).step) }
    {
        self.tally = self.tally.with(weight)?;
        Ok(self.line.add(code, weight))
    }

    fn estimate(&self, code: Code) -> u64 {
        self.start(code).worth(self.sizes().step)
    }

    fn places(&self) -> usize {
        self.sizes().places
    }

    fn step(&self) -> u32 {
        self.sizes().step
    }

    fn packets(&self) -> u32
        ensures { result ≡ (semi_meaning.model self.now).packets }
    {
        self.tally.packets()
    }

    fn volume(&self) -> u64
        ensures { result ≡ (semi_meaning.model self.now).volume }
    {
        self.tally.volume()
    }

    fn greatest_step(&self) -> u32 {
        MOST_STEP
    }
}
