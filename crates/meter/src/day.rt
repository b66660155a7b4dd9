// A day of calls on one meter.
ghost use Rattle.std.specs.Prelude.{◌≡◌, map, IfOk};
ghost use Rattle.meter.specs.Ledgers.{Ledger};
ghost use Rattle.meter.specs.States.{unplanned, list_answer};
ghost use Rattle.meter.specs.Meters.{state_of};
ghost use Rattle.meter.specs.Holding.{Holds};
ghost use Rattle.meter.specs.Days.{said, Day};
ghost use Rattle.meter.specs.Sequences.{call_said, call_leaves, day_said};
ghost use Rattle.meter.specs.Tables.{ample, told_list};

use crate::meter::Meter;
use crate::record::Record;
use flow::counter::FrameCounter;
use flow::key::FlowKey;
use flow::limits::{LEAST_SCRATCH, MOST_MARKS};
use flow::refusal::Refusal;
use frame::plan::Plan;
use std::alloc::{AllocError, Global};

// The lengths of the areas that a list is lent, its scratch in bytes and its table in records.
#[derive(Debug, Clone, Copy, PartialEq, Eq)]
pub struct Areas {
    pub scratch: usize,
    pub table: usize,
}

impl Areas {
    // Areas that are long enough for every list.
    pub fn ample() -> Areas
        ensures { result ≡ ample }
    {
        Areas {
            scratch: LEAST_SCRATCH,
            table: MOST_MARKS,
        }
    }
}

// A call on a meter. A list is at a level, with areas of some lengths.
#[derive(Debug, Drop)]
pub enum Call<K> {
    Plan(Plan),
    Packet(K, u32),
    Estimate(K),
    List(u64, Areas),
    Restart,
}

// What a meter replies to a call that it takes.
#[derive(Debug, Drop)]
pub enum Reply {
    Planned,
    Took(usize),
    Estimated(u64),
    Listed(Vec<Record>),
    Restarted,
}

// What a call is answered: a reply, or why it is refused.
pub type Answered = Result<Reply, Refusal>;

impl<C: FrameCounter> Meter<C> {
    // Makes a call.
    pub(crate) fn call<K: FlowKey>(
        &mut self,
        heap: Global,
        call: &Call<K>,
    ) -> Result<Answered, AllocError>
        ensures said { (l : Ledger) → Holds C.meaning (state_of C.meaning self.old) l → IfOk result (λ a. said a ≡ call_said K.coded C.meaning (state_of C.meaning self.old) call.now) }
        ensures state { (l : Ledger) → Holds C.meaning (state_of C.meaning self.old) l → state_of C.meaning self.new ≡ call_leaves K.coded C.meaning (state_of C.meaning self.old) call.now }
    {
        let answered = match call {
            Call::Plan(plan) => self.plan(*plan).map(|()| Reply::Planned),
            Call::Packet(key, weight) => self.packet(key, *weight).map(Reply::Took),
            Call::Estimate(key) => self.estimate(key).map(Reply::Estimated),
            Call::List(level, areas) => self.listing(heap, *level, *areas)?.map(Reply::Listed),
            Call::Restart => self.restart().map(|()| Reply::Restarted),
        };
        Ok(answered)
    }

    // The list at a level, in memory of its own. Areas that are longer than every list needs change no answer, so no longer ones are made.
    // A day goes on after a refusal and ends where memory does, so the two stay apart.
    pub(crate) fn listing(
        &self,
        heap: Global,
        level: u64,
        areas: Areas,
    ) -> Result<Result<Vec<Record>, Refusal>, AllocError>
        ensures { IfOk result (λ r. told_list r ≡ list_answer C.meaning (state_of C.meaning self.now) level areas.scratch areas.table) }
    {
        let mut scratch = [0u8; LEAST_SCRATCH];
        let mut table = [Record::default(); MOST_MARKS];
        let scratch = &mut scratch[..areas.scratch.min(LEAST_SCRATCH)];
        let table = &mut table[..areas.table.min(MOST_MARKS)];
        match self.list(level, scratch, table) {
            Ok(count) => Ok(Ok(table[..count].to_vec(heap)?)),
            Err(refusal) => Ok(Err(refusal)),
        }
    }
}

// Makes a meter of the counter, makes the calls on it one after the other, and answers all of them.
pub fn day<K: FlowKey, C: FrameCounter + Drop>(
    heap: Global,
    counter: C,
    calls: &[Call<K>],
) -> Result<Vec<Answered>, AllocError>
    ensures guarantee { IfOk result (λ answers. Day K.coded (C.meaning.greatest (C.meaning.model counter)) calls.now (map said answers.items)) }
    ensures answers { IfOk result (λ answers. map said answers.items ≡ day_said K.coded C.meaning (unplanned (C.meaning.model counter)) calls.now) }
{
    let mut meter = Meter::new(counter);
    let mut answers = Vec::new(heap);
    for call in calls {
        answers.push(meter.call(heap, call)?)?;
    }
    Ok(answers)
}
