// The working of an add to a shared-deduction counter.
use crate::worked::Worked;
use flow::code::Code;
use flow::counter::FrameCounter;
use shared::{Held, Place, SharedDeduction};
use std::alloc::AllocError;
use std::io;
use workings::line::Packet;
use workings::shared_deduction::{Way, lost, way_of};

// What the working of an add needs of the counter before it.
#[derive(Drop)]
pub struct Before {
    way: Way,
    count: u64,
    least: u64,
    deduction: u64,
    places: Vec<Place>,
}

// Prints the reckoning of the new count, or of what all places share.
fn show_reckoning(
    rt: &HostRuntime,
    before: &Before,
    counter: &SharedDeduction,
    packet: Packet,
) -> io::Result<()> {
    let Packet { code, weight } = packet;
    let Before {
        way,
        count: old,
        least,
        deduction: from,
        ..
    } = before;
    println!(rt; "  before:   count {old}, deduction {from}")?;
    if let Way::Held | Way::Takes = way {
        let count = counter.count(code);
        return println!(rt; "  count:    {old} + {weight} = {count}");
    }
    let deduction = counter.deduction();
    let fall = u64::from(weight).min(*least);
    let left = u64::from(weight) - fall;
    println!(rt;
        "  fall:     the smaller of the weight {weight} and the least count {least} is {fall}"
    )?;
    println!(rt;
        "  shared:   deduction {from} + {fall} = {deduction}, left of the weight {weight} - {fall} = {left}"
    )
}

// Prints the flows that had a place before and have it no more.
fn show_evicted(rt: &HostRuntime, before: &[Place], after: &[Place]) -> io::Result<()> {
    let mut evicted = before
        .iter()
        .zip(after)
        .filter_map(|(old, new)| lost(old, new))
        .peekable();
    if evicted.peek().is_none() {
        return println!(rt; "  evicted:  none");
    }
    for code in evicted {
        let flow = code.low;
        println!(rt; "  evicted:  flow {flow}")?;
    }
    Ok(())
}

impl Worked for SharedDeduction {
    const TITLE: &'static str = "shared-deduction";

    type Before = Before;

    fn before(&self, rt: &HostRuntime, code: Code) -> Result<Before, AllocError> {
        let places = self.held().to_vec(rt.alloc())?;
        Ok(Before {
            way: way_of(self, code),
            count: self.count(code),
            least: self.least_count(),
            deduction: self.deduction(),
            places,
        })
    }

    fn show_add(&self, rt: &HostRuntime, before: &Before, packet: Packet) -> io::Result<()> {
        let way = before.way;
        println!(rt; "  {way}")?;
        show_reckoning(rt, before, self, packet)?;
        let deduction = self.deduction();
        if self.holds(packet.code) {
            let count = self.count(packet.code);
            println!(rt; "  after:    count {count}, deduction {deduction}")?;
        } else {
            println!(rt; "  after:    no place, deduction {deduction}")?;
        }
        show_evicted(rt, &before.places, self.held())
    }

    fn show_all(&self, rt: &HostRuntime) -> io::Result<()> {
        println!(rt; "  places:         flow      count       estimate")?;
        for place in self.held() {
            match place {
                None => println!(rt; "                 empty")?,
                Some(Held { code, count }) => {
                    let flow = code.low;
                    let estimate = self.estimate(*code);
                    println!(rt; "            {flow:>10} {count:>10} {estimate:>14}")?;
                }
            }
        }
        Ok(())
    }
}
