// A run: a plan, and the packets of a stream.
ghost use Rattle.std.specs.Prelude.{◌≡◌};
ghost use Rattle.flow.specs.Answers.{told};
ghost use Rattle.meter.specs.Ledgers.{Ledger};
ghost use Rattle.meter.specs.Meters.{state_of};
ghost use Rattle.meter.specs.Holding.{Holds};
ghost use Rattle.streams.specs.Runs.{counted, none, offer_answer, offer_leaves, ended, run_from, Performed};

use crate::stream::{Packet, Stream};
use flow::account::Account;
use flow::counter::FrameCounter;
use flow::refusal::Refusal;
use frame::plan::Plan;
use meter::meter::Meter;

// What the packets of a run came to: how many were accepted, and the sum of their passes.
#[derive(Clone, Copy)]
pub struct Totals {
    pub packets: u64,
    pub passes: u64,
}

impl Totals {
    // No packets and no passes.
    fn none() -> Totals
        ensures { result ≡ none }
    {
        Totals {
            packets: 0,
            passes: 0,
        }
    }

    // With one more packet. No run reaches the greatest number of 64 bits, where a sum would stop.
    fn with(self, passes: usize) -> Totals
        ensures { result ≡ counted self passes }
    {
        Totals {
            packets: self.packets.saturating_add(1),
            // There is no `From` to turn a usize into a u64, and the cast loses nothing.
            passes: self.passes.saturating_add(passes as u64),
        }
    }
}

// A run that was done: the meter, what its packets came to, and why the next one was refused where one was.
#[derive(Drop)]
pub struct Run<C> {
    pub meter: Meter<C>,
    pub totals: Totals,
    pub refusal: Option<Refusal>,
}

// Meters a packet of a stream. Answers the counter's passes.
fn offer<C: FrameCounter>(meter: &mut Meter<C>, packet: Packet) -> Result<usize, Refusal>
    ensures answer { (l : Ledger) → Holds C.meaning (state_of C.meaning meter.old) l → told result ≡ offer_answer C.meaning (state_of C.meaning meter.old) packet }
    ensures state { (l : Ledger) → Holds C.meaning (state_of C.meaning meter.old) l → state_of C.meaning meter.new ≡ offer_leaves C.meaning (state_of C.meaning meter.old) packet }
    ensures holds { (l : Ledger) → Holds C.meaning (state_of C.meaning meter.old) l → (n : Ledger) × Holds C.meaning (state_of C.meaning meter.new) n }
{
    let key = Account::new(packet.flow)?;
    meter.packet(&key, packet.weight)
}

// Meters so many packets of a stream, up to the first that is refused.
fn meter_packets<C: FrameCounter>(
    meter: &mut Meter<C>,
    stream: &Stream,
    packets: u64,
) -> (Totals, Option<Refusal>)
    ensures { (l : Ledger) → Holds C.meaning (state_of C.meaning meter.old) l → ended (state_of C.meaning meter.new) result ≡ run_from C.meaning stream.now packets 0 (state_of C.meaning meter.old) none }
{
    let mut totals = Totals::none();
    for index in 0..packets {
        match offer(meter, stream.packet(index)) {
            Ok(passes) => totals = totals.with(passes),
            Err(refusal) => return (totals, Some(refusal)),
        }
    }
    (totals, None)
}

// Plans a new meter over the counter, and meters so many packets of the stream.
pub fn perform<C: FrameCounter + Drop>(
    counter: C,
    plan: Plan,
    stream: &Stream,
    packets: u64,
) -> Result<Run<C>, Refusal>
    ensures { Performed C.meaning (C.meaning.model counter) plan stream.now packets result }
{
    let mut meter = Meter::new(counter);
    meter.plan(plan)?;
    let (totals, refusal) = meter_packets(&mut meter, stream, packets);
    Ok(Run {
        meter,
        totals,
        refusal,
    })
}
