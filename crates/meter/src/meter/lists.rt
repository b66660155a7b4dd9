// Lists of the heavy flows.
ghost use Rattle.std.specs.Prelude.{◌≡◌, ◌+◌, ◌≤◌, ◌++◌, All, length, take, drop, set, IfOk, nat_lt};
ghost use Rattle.std.specs.Option.{option_to_list};
ghost use Rattle.flow.specs.Answers.{told};
ghost use Rattle.flow.specs.Limits.{most_marks};
ghost use Rattle.frame.specs.Marked.{listed};
ghost use Rattle.frame.specs.Marking.{flows};
ghost use Rattle.meter.specs.Ledgers.{Ledger, level_verdict};
ghost use Rattle.meter.specs.Guarantees.{ListsUnder};
ghost use Rattle.meter.specs.States.{estimate_in, listing, list_in, list_answer, count_of, table_leaves, scratch_leaves};
ghost use Rattle.meter.specs.Meters.{windowed, state_of};
ghost use Rattle.meter.specs.Holding.{Holds};

use crate::meter::{Meter, Window};
use crate::record::Record;
use flow::counter::FrameCounter;
use flow::limits::LEAST_SCRATCH;
use flow::refusal::Refusal;

impl<C: FrameCounter> Meter<C> {
    // Whether a list can be asked for at this level.
    pub fn check_level(&self, level: u64) -> Result<(), Refusal>
        ensures { told result ≡ level_verdict (state_of C.meaning self.now).plan level }
    {
        match &self.window {
            Some(window) => window.layout.check_level(level),
            None => Err(Refusal::NotTakenNow),
        }
    }

    // The flows with a mark and an estimate of at least the level, each once, in the order of their oldest marks, at the front of the table.
    // Answers how many. The scratch is all zero then. A refusal leaves both as they were.
    pub fn list(
        &self,
        level: u64,
        scratch: &mut [u8],
        table: &mut [Record],
    ) -> Result<usize, Refusal>
        ensures answer { told result ≡ count_of (list_answer C.meaning (state_of C.meaning self.now) level (length scratch.old) (length table.old)) }
        ensures table { table.new ≡ table_leaves (list_answer C.meaning (state_of C.meaning self.now) level (length scratch.old) (length table.old)) table.old }
        ensures scratch { scratch.new ≡ scratch_leaves (list_answer C.meaning (state_of C.meaning self.now) level (length scratch.old) (length table.old)) scratch.old }
        ensures cleared { IfOk result (λ n. All (λ b. b ≡ 0) scratch.new) }
        ensures few { IfOk result (λ n. n ≤ most_marks) }
        ensures bounds { (l : Ledger) → Holds C.meaning (state_of C.meaning self.now) l → IfOk result (λ n. ListsUnder l.plan l.roll level (take n table.new)) }
    {
        let Some(window) = &self.window else {
            return Err(Refusal::NotTakenNow);
        };
        window.layout.check_level(level)?;
        if scratch.len() < LEAST_SCRATCH {
            return Err(Refusal::ScratchTooShort);
        }
        if window.list_exceeds(&self.counter, level, table.len()) {
            return Err(Refusal::TableTooShort);
        }
        let count = window.list_into(&self.counter, level, table);
        scratch.fill(0);
        Ok(count)
    }
}

impl Window {
    // Whether the list at a level has more records than this room. A list has no more than there are marks, so a table of as many needs no count.
    fn list_exceeds<C: FrameCounter>(&self, counter: &C, level: u64, room: usize) -> bool
        ensures { result ≡ nat_lt room (length (list_in C.meaning (windowed C.meaning counter.now self.now) self.now.layout.plan level)) }
    {
        room < self.marks.len() && room < self.list_into(counter, level, &mut [])
    }

    // Writes the list at a level to the front of the table, as far as that reaches. Answers how many records the list has.
    // Inlined at both of its calls, so that a list over no marks costs no call.
    #[inline(always)]
    fn list_into<C: FrameCounter>(&self, counter: &C, level: u64, table: &mut [Record]) -> usize
        ensures count { result ≡ length (list_in C.meaning (windowed C.meaning counter.now self.now) self.now.layout.plan level) }
        ensures table { table.new ≡ take (length table.old) (list_in C.meaning (windowed C.meaning counter.now self.now) self.now.layout.plan level) ++ drop result table.old }
    {
        let mut count = 0;
        for place in 0..self.marks.len() {
            if let Some(record) = self.record_at(counter, level, place) {
                write_at(table, count, record);
                count += 1;
            }
        }
        count
    }

    // The record of the flow of the mark at this place, if no mark before it is of that flow and its estimate is at least the level.
    fn record_at<C: FrameCounter>(&self, counter: &C, level: u64, place: usize) -> Option<Record>
        ensures { let estimates = estimate_in C.meaning (windowed C.meaning counter.now self.now) self.now.layout.plan in listing estimates level (flows (take (place + 1) (listed self.now.marks))) ≡ listing estimates level (flows (take place (listed self.now.marks))) ++ option_to_list result }
    {
        let code = self.marks.flow_at(place)?;
        let estimate = self.estimate(counter, code);
        let is_heavy = estimate >= level;
        is_heavy.then_some(Record { code, estimate })
    }
}

// Writes a record at a place of the table, if the table reaches so far.
fn write_at(table: &mut [Record], place: usize, written: Record)
    ensures { table.new ≡ set table.old place written }
{
    if place < table.len() {
        table[place] = written;
    }
}
