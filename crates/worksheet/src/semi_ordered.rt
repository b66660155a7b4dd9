// The working of an add to a semi-ordered counter.
use crate::worked::Worked;
use flow::code::Code;
use flow::counter::FrameCounter;
use semi::{Entry, SemiOrdered};
use std::alloc::AllocError;
use std::io;
use workings::division::Division;
use workings::line::Packet;
use workings::semi_ordered::{Way, way_of};

// What the working of an add needs of the counter before it.
#[derive(Clone, Copy)]
pub struct Before {
    way: Way,
    start: Entry,
}

// Prints who was evicted.
fn show_evicted(rt: &HostRuntime, way: Way) -> io::Result<()> {
    match way {
        Way::Held | Way::Enters => println!(rt; "  evicted:  none"),
        Way::Evicts(first) => {
            let flow = first.code.low;
            let group = first.group;
            let remainder = first.remainder;
            println!(rt; "  evicted:  flow {flow} (group {group}, remainder {remainder})")
        }
    }
}

impl Worked for SemiOrdered {
    const TITLE: &'static str = "semi-ordered";

    type Before = Before;

    fn before(&self, _rt: &HostRuntime, code: Code) -> Result<Before, AllocError> {
        Ok(Before {
            way: way_of(self, code),
            start: self.start(code),
        })
    }

    fn show_add(&self, rt: &HostRuntime, before: &Before, packet: Packet) -> io::Result<()> {
        let Packet { code, weight } = packet;
        let way = before.way;
        println!(rt; "  {way}")?;
        let Entry {
            group,
            remainder,
            ..
        } = before.start;
        println!(rt; "  before:   group {group}, remainder {remainder}")?;
        let sum = u64::from(remainder) + u64::from(weight);
        if let Some(division) = Division::of(sum, self.step()) {
            let quotient = division.quotient;
            let after = self.start(code);
            let new_group = after.group;
            let new_remainder = after.remainder;
            println!(rt; "  division: {remainder} + {weight} = {division}")?;
            println!(rt;
                "  after:    group {group} + {quotient} = {new_group}, remainder {new_remainder}"
            )?;
        }
        show_evicted(rt, before.way)
    }

    fn show_all(&self, rt: &HostRuntime) -> io::Result<()> {
        println!(rt; "  line:           flow      group  remainder       estimate")?;
        for entry in self.line() {
            let flow = entry.code.low;
            let group = entry.group;
            let remainder = entry.remainder;
            let estimate = self.estimate(entry.code);
            println!(rt; "            {flow:>10} {group:>10} {remainder:>10} {estimate:>14}")?;
        }
        Ok(())
    }
}
