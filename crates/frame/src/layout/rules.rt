// What an accepted plan decides: which plans are accepted, where blocks lie, which packets are marked.
ghost use Rattle.std.specs.Prelude.{◌≡◌, ◌/◌, ◌≤◌};
ghost use Rattle.flow.specs.Answers.{told};
ghost use Rattle.flow.specs.Limits.{most_unit};
ghost use Rattle.frame.specs.Plans.{judged, block_of, unit_of, next_offset, level_judged};
ghost use Rattle.frame.specs.Marking.{due};
ghost use Rattle.frame.specs.Layouts.{Laid};

use crate::layout::Layout;
use crate::plan::Plan;
use flow::limits::{LEAST_LEVEL_UNITS, MOST_WEIGHT, MOST_WINDOW};
use flow::refusal::Refusal;
use flow::sizes::Sizes;

impl Plan {
    // Whether the numbers of a plan can be kept over a counter with this greatest step.
    fn check(&self, greatest_step: u32) -> Result<(), Refusal>
        ensures { told result ≡ judged greatest_step self.now }
    {
        let Sizes { places, step } = Sizes::of(self.places, self.step, greatest_step)?;
        if !(1..=MOST_WEIGHT).contains(&self.most) {
            return Err(Refusal::GreatestWeightOutOfRange);
        }
        if !(1..=MOST_WINDOW).contains(&self.window) {
            return Err(Refusal::WindowOutOfRange);
        }
        if self.blocks == 0 || self.window % self.blocks != 0 {
            return Err(Refusal::BlocksUnfit);
        }
        // There is no `From` to turn a usize into a u64, and the cast loses nothing.
        let worth = places as u64 * u64::from(self.most);
        if worth <= u64::from(self.blocks) * (u64::from(self.most) + u64::from(step - 1)) {
            return Err(Refusal::PlacesTooFew);
        }
        Ok(())
    }
}

impl Layout {
    // The layout of a plan over a counter with this greatest step.
    pub fn of(plan: Plan, greatest_step: u32) -> Result<Layout, Refusal>
        ensures { Laid greatest_step plan result }
    {
        plan.check(greatest_step)?;
        let block = plan.window / plan.blocks;
        Ok(Layout {
            plan,
            block,
            unit: u64::from(plan.most) * u64::from(block),
        })
    }

    // The plan.
    pub fn plan(&self) -> Plan
        ensures { result ≡ self.now.plan }
    {
        self.plan
    }

    // The unit of marks: the most that the packets of a block can weigh.
    pub fn unit(&self) -> u64
        ensures value { result ≡ unit_of self.now.plan }
        ensures size { (1 ≤ result) × (result ≤ most_unit) }
    {
        self.unit
    }

    // Whether a list can be asked for at this level: only flows of so much are sure to have a mark.
    pub fn check_level(&self, level: u64) -> Result<(), Refusal>
        ensures { told result ≡ level_judged self.now.plan level }
    {
        if level < LEAST_LEVEL_UNITS * self.unit {
            return Err(Refusal::LevelTooLow);
        }
        Ok(())
    }

    // The block of the packet at this offset, counted from 0 in its frame.
    pub fn block_of(&self, offset: u32) -> u32
        ensures { result ≡ offset / block_of self.now.plan }
    {
        offset / self.block
    }

    // Whether a packet lifts its flow's estimate to the next multiple of the unit. Sums of 128 bits hold any estimate of any counter.
    pub fn is_due(&self, estimate: u64, weight: u32) -> bool
        ensures { result ≡ due (unit_of self.now.plan) estimate weight }
    {
        let unit = u128::from(self.unit);
        let before = u128::from(estimate);
        let after = before + u128::from(weight);
        after / unit > before / unit
    }

    // The offset after this one: the last of a frame is followed by 0.
    pub fn offset_after(&self, offset: u32) -> u32
        ensures { result ≡ next_offset self.now.plan offset }
    {
        if offset < self.plan.window - 1 {
            offset + 1
        } else {
            0
        }
    }
}
