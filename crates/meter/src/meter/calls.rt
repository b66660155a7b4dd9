// The calls of a meter, but for lists.
ghost use Rattle.std.specs.Prelude.{◌≡◌, ℕ, ◌-◌, ◌*◌, ◌≤◌, ◌++◌, length, is_some, IfOk, MatchOption};
ghost use Rattle.std.specs.Option.{option_map};
ghost use Rattle.flow.specs.Answers.{told, refused, Unchanged};
ghost use Rattle.flow.specs.Limits.{most_unit};
ghost use Rattle.frame.specs.Plans.{unit_of};
ghost use Rattle.meter.specs.Ledgers.{Ledger, packet_verdict, fresh, planned, noted, restarted};
ghost use Rattle.meter.specs.Guarantees.{places_of, EstimateRight};
ghost use Rattle.meter.specs.States.{unplanned, plan_answer, plan_leaves, packet_answer, packet_leaves, estimate_answer, restart_answer, restart_leaves};
ghost use Rattle.meter.specs.Meters.{state_of};
ghost use Rattle.meter.specs.Holding.{Holds};

use crate::meter::{Meter, Window};
use flow::counter::FrameCounter;
use flow::key::FlowKey;
use flow::refusal::Refusal;
use frame::layout::Layout;
use frame::plan::Plan;

impl<C: FrameCounter> Meter<C> {
    // A meter with no plan, made of a counter that it takes over.
    pub fn new(counter: C) -> Meter<C>
        ensures state { state_of C.meaning result ≡ unplanned (C.meaning.model counter) }
        ensures holds { Holds C.meaning (state_of C.meaning result) (fresh (C.meaning.greatest (C.meaning.model counter))) }
    {
        Meter {
            counter,
            window: None,
        }
    }

    // The plan, once one was accepted.
    pub fn planned(&self) -> Option<Plan>
        ensures { result ≡ (state_of C.meaning self.now).plan }
    {
        self.window.as_ref().map(|window| window.layout.plan())
    }

    // Whether a plan was accepted.
    pub fn is_planned(&self) -> bool
        ensures { result ≡ is_some (state_of C.meaning self.now).plan }
    {
        self.window.is_some()
    }

    // The unit of the plan: an estimate is above the true volume by less than four units.
    pub fn unit(&self) -> Option<u64>
        ensures value { result ≡ option_map unit_of (state_of C.meaning self.now).plan }
        ensures small { MatchOption result (Unit {0}) (λ t. t ≤ most_unit) }
    {
        self.window.as_ref().map(|window| window.layout.unit())
    }

    // How many marks the meter keeps.
    pub fn mark_count(&self) -> usize
        ensures count { result ≡ length ((state_of C.meaning self.now).older ++ (state_of C.meaning self.now).newer) }
        ensures few { (l : Ledger) → Holds C.meaning (state_of C.meaning self.now) l → result ≤ 2 * (places_of l.plan - 1) }
    {
        self.window.as_ref().map_or(0, |window| window.marks.len())
    }

    // Accepts a plan. The counter is opened last, when nothing else can be wrong.
    // Inlined, so that the marks of a meter that is made and planned in one place can be written once.
    #[inline]
    pub fn plan(&mut self, plan: Plan) -> Result<(), Refusal>
        ensures answer { told result ≡ plan_answer C.meaning (state_of C.meaning self.old) plan }
        ensures state { state_of C.meaning self.new ≡ plan_leaves C.meaning (state_of C.meaning self.old) plan }
        ensures unchanged { Unchanged result self.old self.new }
        ensures holds { (l : Ledger) → Holds C.meaning (state_of C.meaning self.old) l → Holds C.meaning (state_of C.meaning self.new) (planned l plan) }
    {
        if self.window.is_some() {
            return Err(Refusal::NotTakenNow);
        }
        let layout = Layout::of(plan, self.counter.greatest_step())?;
        self.counter.open(plan.places, plan.step)?;
        self.window = Some(Window::new(layout));
        Ok(())
    }

    // Begins again with an empty window under the same plan.
    pub fn restart(&mut self) -> Result<(), Refusal>
        ensures answer { told result ≡ restart_answer C.meaning (state_of C.meaning self.old) }
        ensures state { state_of C.meaning self.new ≡ restart_leaves C.meaning (state_of C.meaning self.old) }
        ensures unchanged { Unchanged result self.old self.new }
        ensures holds { (l : Ledger) → Holds C.meaning (state_of C.meaning self.old) l → Holds C.meaning (state_of C.meaning self.new) (restarted l) }
    {
        let Some(window) = &mut self.window else {
            return Err(Refusal::NotTakenNow);
        };
        self.counter.flush();
        window.clear();
        Ok(())
    }

    // Meters a packet. Answers the counter's passes.
    // Each clause has as its premise that the meter holds what a ledger says. A ghost field could say only that there is such a ledger.
    // From that no equation between models would follow, since models may be of any type.
    pub fn packet<K: FlowKey>(&mut self, key: &K, weight: u32) -> Result<usize, Refusal>
        ensures answer { (l : Ledger) → Holds C.meaning (state_of C.meaning self.old) l → told result ≡ packet_answer C.meaning (state_of C.meaning self.old) (K.coded key.now) weight }
        ensures state { (l : Ledger) → Holds C.meaning (state_of C.meaning self.old) l → state_of C.meaning self.new ≡ packet_leaves C.meaning (state_of C.meaning self.old) (K.coded key.now) weight }
        ensures unchanged { (l : Ledger) → Holds C.meaning (state_of C.meaning self.old) l → Unchanged result self.old self.new }
        ensures few_passes { (l : Ledger) → Holds C.meaning (state_of C.meaning self.old) l → IfOk result (λ x. x ≤ places_of l.plan) }
        ensures refusals { (n : ℕ) → packet_verdict (state_of C.meaning self.old).plan weight 0 ≡ refused n → (told result ≡ refused n) × (self.new ≡ self.old) }
        ensures holds { (l : Ledger) → Holds C.meaning (state_of C.meaning self.old) l → Holds C.meaning (state_of C.meaning self.new) (noted l (K.coded key.now) weight) }
    {
        let Some(window) = &mut self.window else {
            return Err(Refusal::NotTakenNow);
        };
        window.packet(&mut self.counter, key.code(), weight)
    }

    // The estimate of a flow's volume in the window.
    pub fn estimate<K: FlowKey>(&self, key: &K) -> Result<u64, Refusal>
        ensures answer { told result ≡ estimate_answer C.meaning (state_of C.meaning self.now) (K.coded key.now) }
        ensures bounds { (l : Ledger) → Holds C.meaning (state_of C.meaning self.now) l → EstimateRight l.plan l.roll (K.coded key.now) (told result) }
    {
        let Some(window) = &self.window else {
            return Err(Refusal::NotTakenNow);
        };
        Ok(window.estimate(&self.counter, key.code()))
    }
}
