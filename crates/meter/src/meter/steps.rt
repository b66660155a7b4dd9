// The steps of calls, on a window and its counter. Each says that the layout stays.
// The counter stands beside the window, since a meter has one before it has a plan; code and weight come as its `add` has them.
ghost use Rattle.std.specs.Prelude.{◌≡◌, ◌≤◌, ℕ, Some, [], IfOk, OnOk};
ghost use Rattle.flow.specs.Answers.{told, refused, Unchanged};
ghost use Rattle.flow.specs.Meanings.{add_answer};
ghost use Rattle.frame.specs.Plans.{block_of};
ghost use Rattle.frame.specs.Marking.{leave};
ghost use Rattle.frame.specs.Marked.{older, newer};
ghost use Rattle.meter.specs.Ledgers.{Ledger, packet_verdict};
ghost use Rattle.meter.specs.Guarantees.{places_of};
ghost use Rattle.meter.specs.States.{begun, counted, packet_answer, packet_leaves, estimate_in};
ghost use Rattle.meter.specs.Meters.{windowed};
ghost use Rattle.meter.specs.Holding.{Holds, Room};

use crate::meter::Window;
use flow::code::Code;
use flow::counter::FrameCounter;
use flow::refusal::Refusal;
use frame::layout::Layout;
use frame::marks::{Mark, Marks};

impl Window {
    // An empty window.
    pub(crate) fn new(layout: Layout) -> Window
        ensures layout { result.layout ≡ layout }
        ensures offset { result.offset ≡ 0 }
        ensures older { older result.marks ≡ [] }
        ensures newer { newer result.marks ≡ [] }
    {
        Window {
            layout,
            offset: 0,
            marks: Marks::new(),
        }
    }

    // Empties the window.
    pub(crate) fn clear(&mut self)
        ensures layout { self.new.layout ≡ self.old.layout }
        ensures offset { self.new.offset ≡ 0 }
        ensures older { older self.new.marks ≡ [] }
        ensures newer { newer self.new.marks ≡ [] }
    {
        self.offset = 0;
        self.marks.clear();
    }

    // Takes a packet. Answers the counter's passes.
    pub(crate) fn packet<C: FrameCounter>(
        &mut self,
        counter: &mut C,
        code: Code,
        weight: u32,
    ) -> Result<usize, Refusal>
        ensures answer { (l : Ledger) → Holds C.meaning (windowed C.meaning counter.old self.old) l → told result ≡ packet_answer C.meaning (windowed C.meaning counter.old self.old) code weight }
        ensures state { (l : Ledger) → Holds C.meaning (windowed C.meaning counter.old self.old) l → windowed C.meaning counter.new self.new ≡ packet_leaves C.meaning (windowed C.meaning counter.old self.old) code weight }
        ensures counter { (l : Ledger) → Holds C.meaning (windowed C.meaning counter.old self.old) l → Unchanged result counter.old counter.new }
        ensures unchanged { (l : Ledger) → Holds C.meaning (windowed C.meaning counter.old self.old) l → Unchanged result self.old self.new }
        ensures few_passes { (l : Ledger) → Holds C.meaning (windowed C.meaning counter.old self.old) l → IfOk result (λ x. x ≤ places_of l.plan) }
        ensures refusals { (n : ℕ) → packet_verdict (Some self.old.layout.plan) weight 0 ≡ refused n → (told result ≡ refused n) × (self.new ≡ self.old) × (counter.new ≡ counter.old) }
    {
        if weight == 0 {
            return Err(Refusal::WeightZero);
        }
        if weight > self.layout.plan().most {
            return Err(Refusal::WeightAbovePlan);
        }
        self.begin_frame(counter);
        self.leave_block();
        self.count(counter, code, weight)
    }

    // At the first offset of a frame the counter is flushed, and the marks made so far are those of the previous frame.
    fn begin_frame<C: FrameCounter>(&mut self, counter: &mut C)
        ensures layout { self.new.layout ≡ self.old.layout }
        ensures state { windowed C.meaning counter.new self.new ≡ begun C.meaning (windowed C.meaning counter.old self.old) }
    {
        if self.offset == 0 {
            counter.flush();
            self.marks.turn();
        }
    }

    // Drops the oldest mark if it was made one frame ago in the present block.
    fn leave_block(&mut self)
        ensures layout { self.new.layout ≡ self.old.layout }
        ensures offset { self.new.offset ≡ self.old.offset }
        ensures older { older self.new.marks ≡ leave (block_of self.old.layout.plan) self.old.offset (older self.old.marks) }
        ensures newer { newer self.new.marks ≡ newer self.old.marks }
    {
        if let Some(mark) = self.marks.oldest()
            && self.layout.block_of(mark.offset) == self.layout.block_of(self.offset)
        {
            self.marks.drop_oldest();
        }
    }

    // Adds the packet to the counter, marks it if that is due, and goes on to the next offset.
    fn count<C: FrameCounter>(
        &mut self,
        counter: &mut C,
        code: Code,
        weight: u32,
    ) -> Result<usize, Refusal>
        ensures layout { self.new.layout ≡ self.old.layout }
        ensures answer { C.meaning.sound (C.meaning.model counter.old) → told result ≡ add_answer C.meaning (C.meaning.model counter.old) code weight }
        ensures state { Room C.meaning self.old.layout.plan (windowed C.meaning counter.old self.old) code weight → OnOk result (windowed C.meaning counter.new self.new ≡ counted C.meaning self.old.layout.plan (windowed C.meaning counter.old self.old) code weight) }
    {
        let estimate = counter.estimate(code);
        let passes = counter.add(code, weight)?;
        let offset = self.offset;
        if self.layout.is_due(estimate, weight) {
            self.marks.put(Mark { code, offset });
        }
        self.offset = self.layout.offset_after(offset);
        Ok(passes)
    }

    // The estimate of a flow.
    pub(crate) fn estimate<C: FrameCounter>(&self, counter: &C, code: Code) -> u64
        ensures { result ≡ estimate_in C.meaning (windowed C.meaning counter.now self.now) self.now.layout.plan code }
    {
        let unit = self.layout.unit();
        // There is no `From` to turn a usize into a u64, and the cast loses nothing.
        let marks = self.marks.count_of(code) as u64;
        unit * (marks + 2) + counter.estimate(code) % unit
    }
}
