// A sheet: its title, a working for each packet, and the table at its end.
use crate::worked::Worked;
use flow::counter::FrameCounter;
use inputs::failure::Failure;
use inputs::kind::CounterKind;
use semi::SemiOrdered;
use shared::SharedDeduction;
use std::io;
use text::is_blank;
use workings::line::{Heading, Packet, Sizes, Unread};
use workings::totals::Totals;

// A sheet of any kind, which is known only when the program runs. It is an enum, since a function may not make a `dyn` value and hand it out.
#[derive(Drop)]
pub enum AnySheet {
    SemiOrdered(Sheet<SemiOrdered>),
    SharedDeduction(Sheet<SharedDeduction>),
}

impl AnySheet {
    // Begins the sheet that the heading on the line of this number asks for.
    pub(crate) fn begin(rt: &HostRuntime, number: u64, heading: Heading) -> io::Result<AnySheet> {
        let Heading { kind, sizes } = heading;
        Ok(match kind {
            CounterKind::SemiOrdered => {
                AnySheet::SemiOrdered(Sheet::begin(rt, number, SemiOrdered::new(), sizes)?)
            }
            CounterKind::SharedDeduction => {
                AnySheet::SharedDeduction(Sheet::begin(rt, number, SharedDeduction::new(), sizes)?)
            }
        })
    }

    // Works a line behind the heading.
    pub(crate) fn work_line(
        &mut self,
        rt: &HostRuntime,
        number: u64,
        line: &[u8],
    ) -> io::Result<()> {
        match self {
            AnySheet::SemiOrdered(sheet) => sheet.work_line(rt, number, line),
            AnySheet::SharedDeduction(sheet) => sheet.work_line(rt, number, line),
        }
    }

    // Ends the sheet.
    pub(crate) fn end(&self, rt: &HostRuntime) -> io::Result<()> {
        match self {
            AnySheet::SemiOrdered(sheet) => sheet.end(rt),
            AnySheet::SharedDeduction(sheet) => sheet.end(rt),
        }
    }
}

// A counter, and the true volumes of the flows that it has counted.
#[derive(Drop)]
pub struct Sheet<C> {
    counter: C,
    totals: Totals,
}

impl<C: Worked> Sheet<C> {
    // Begins a sheet: opens its counter as the heading asks, and prints the title.
    fn begin(
        rt: &HostRuntime,
        number: u64,
        mut counter: C,
        sizes: Option<Sizes>,
    ) -> io::Result<Sheet<C>> {
        if let Err(failure) = open(&mut counter, sizes) {
            show_failure(rt, number, failure)?;
        }
        let title = C::TITLE;
        let places = counter.places();
        let step = counter.step();
        println!(rt; "Worked sheet: {title} counter, places {places}, step {step}\n")?;
        Ok(Sheet {
            counter,
            totals: Totals::new(rt.alloc()),
        })
    }

    // Works a line behind the heading. A blank line is passed over.
    fn work_line(&mut self, rt: &HostRuntime, number: u64, line: &[u8]) -> io::Result<()> {
        if is_blank(line) {
            return Ok(());
        }
        match Packet::read(line) {
            Ok(packet) => self.work_packet(rt, number, packet),
            Err(unread) => show_failure(rt, number, Failure::Unread(unread)),
        }
    }

    // Works one packet: adds it, and prints the working or the refusal.
    fn work_packet(&mut self, rt: &HostRuntime, number: u64, packet: Packet) -> io::Result<()> {
        let Packet { code, weight } = packet;
        let before = self.counter.before(rt, code)?;
        match self.counter.add(code, weight) {
            Ok(passes) => {
                let flow = code.low;
                println!(rt; "Line {number}. Flow {flow}, weight {weight}.")?;
                self.counter.show_add(rt, &before, packet)?;
                println!(rt; "  passes:   {passes}")?;
                self.counter.show_all(rt)?;
                println!(rt)?;
                self.totals.add(packet)?;
                Ok(())
            }
            Err(refusal) => show_failure(rt, number, Failure::Refused(refusal)),
        }
    }

    // Ends the sheet with the table of its flows: each flow's estimate beside its true volume.
    fn end(&self, rt: &HostRuntime) -> io::Result<()> {
        println!(rt; "      flow       estimate    true volume")?;
        for (code, volume) in &self.totals.flows {
            let flow = code.low;
            let estimate = self.counter.estimate(*code);
            println!(rt; "{flow:>10} {estimate:>14} {volume:>14}")?;
        }
        let packets = self.counter.packets();
        let volume = self.counter.volume();
        println!(rt; "packets {packets}, volume {volume}\n")
    }
}

// Opens the counter with the sizes of its heading.
fn open<C: FrameCounter>(counter: &mut C, sizes: Option<Sizes>) -> Result<(), Failure<Unread>> {
    let Sizes { places, step } = sizes.ok_or(Failure::Unread(Unread::Heading))?;
    let places = usize::try_from(places).unwrap_or(usize::MAX);
    counter.open(places, step)?;
    Ok(())
}

// Prints why a line was not worked.
fn show_failure(rt: &HostRuntime, number: u64, failure: Failure<Unread>) -> io::Result<()> {
    println!(rt; "Line {number}. {failure}\n")
}
