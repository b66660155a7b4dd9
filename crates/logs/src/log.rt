// A log: the calls that its lines ask for, and their answers.
ghost use Rattle.std.specs.Prelude.{◌≡◌, [], map, IfOk, OnOk};
ghost use Rattle.meter.specs.States.{unplanned};
ghost use Rattle.meter.specs.Days.{said, Day};
ghost use Rattle.meter.specs.Sequences.{day_said};
ghost use Rattle.logs.specs.Logs.{level_of, planned, LineTaken, LogRead, LayoutRead, counter_of, greatest_of, said_by};

use crate::heading::Asks;
use crate::line::{Unread, read_line};
use crate::written::WrittenKey;
use flow::counter::FrameCounter;
use frame::layout::Layout;
use inputs::failure::Failure;
use inputs::kind::CounterKind;
use meter::day::{Answered, Areas, Call, day};
use semi::SemiOrdered;
use shared::SharedDeduction;
use std::alloc::{AllocError, Global};

// What stands on a line: nothing, a call, or something else.
#[derive(Clone, Copy)]
pub enum Note {
    Blank,
    Call,
    Wrong(Failure<Unread>),
}

// The level of a log's lists. Where its heading asks for none they are refused, whatever the level.
fn level_of(asks: Option<Asks>) -> u64
    ensures { result ≡ level_of asks }
{
    asks.map_or(0, |asks| asks.level)
}

// The calls of a log, and a note for each of its lines.
#[derive(Drop)]
pub struct Log<K> {
    pub calls: Vec<Call<K>>,
    pub notes: Vec<Note>,
}

impl<K: WrittenKey> Log<K> {
    // Reads a line behind the heading.
    fn take_line(&mut self, line: &[u8], level: u64) -> Result<(), AllocError>
        ensures { OnOk result (LineTaken (λ k. K.text (K.coded k)) level line.now self.old.calls.items self.old.notes.items self.new.calls.items self.new.notes.items) }
    {
        match read_line(line, level) {
            None => self.notes.push(Note::Blank)?,
            Some(Ok(call)) => {
                self.calls.push(call)?;
                self.notes.push(Note::Call)?;
            }
            Some(Err(failure)) => self.notes.push(Note::Wrong(failure))?,
        }
        Ok(())
    }

    // A log of no lines yet: its first call is the plan of its heading.
    fn begin(heap: Global, asks: Option<Asks>) -> Result<Log<K>, AllocError>
        ensures { IfOk result (λ l. (l.calls.items ≡ planned asks) × (l.notes.items ≡ [])) }
    {
        let mut calls = Vec::new(heap);
        if let Some(asks) = asks {
            calls.push(Call::Plan(asks.plan))?;
        }
        Ok(Log {
            calls,
            notes: Vec::new(heap),
        })
    }

    // Reads the lines behind a heading. The last call is one more list.
    pub fn read(heap: Global, asks: Option<Asks>, lines: &[&[u8]]) -> Result<Log<K>, AllocError>
        ensures { IfOk result (λ l. LogRead (λ k. K.text (K.coded k)) asks (map (λ line. line.now) lines.now) l.calls.items l.notes.items) }
    {
        let mut log = Log::begin(heap, asks)?;
        let level = level_of(asks);
        for line in lines {
            log.take_line(line, level)?;
        }
        log.calls.push(Call::List(level, Areas::ample()))?;
        Ok(log)
    }
}

// The layout of the plan that a heading asks for, where a counter with this greatest step takes it.
fn layout_of(asks: Option<Asks>, greatest_step: u32) -> Option<Layout>
    ensures { LayoutRead greatest_step asks result }
{
    Layout::of(asks?.plan, greatest_step).ok()
}

// A log that was metered: its answers, one for each call, and the layout of its plan if that was accepted.
#[derive(Drop)]
pub struct Metered<K> {
    pub log: Log<K>,
    pub layout: Option<Layout>,
    pub answers: Vec<Answered>,
}

// Reads a log, and makes the calls that it asks for on a new meter over the counter.
pub fn meter_over<K: WrittenKey, C: FrameCounter + Drop>(
    heap: Global,
    counter: C,
    asks: Option<Asks>,
    lines: &[&[u8]],
) -> Result<Metered<K>, AllocError>
    ensures read { IfOk result (λ m. LogRead (λ k. K.text (K.coded k)) asks (map (λ line. line.now) lines.now) m.log.calls.items m.log.notes.items) }
    ensures layout { IfOk result (λ m. LayoutRead (C.meaning.greatest (C.meaning.model counter)) asks m.layout) }
    ensures guarantee { IfOk result (λ m. Day K.coded (C.meaning.greatest (C.meaning.model counter)) m.log.calls.items (map said m.answers.items)) }
    ensures answers { IfOk result (λ m. map said m.answers.items ≡ day_said K.coded C.meaning (unplanned (C.meaning.model counter)) m.log.calls.items) }
{
    let layout = layout_of(asks, counter.greatest_step());
    let log = Log::read(heap, asks, lines)?;
    let answers = day(heap, counter, &log.calls)?;
    Ok(Metered {
        log,
        layout,
        answers,
    })
}

// The kind of counter that a heading asks for. Where it asks for none, every call is refused, whatever the kind.
fn counter_of(asks: Option<Asks>) -> CounterKind
    ensures { result ≡ counter_of asks }
{
    asks.map_or(CounterKind::SemiOrdered, |asks| asks.counter)
}

// Reads a log, and meters it over a new counter of the kind that its heading asks for.
pub fn meter_log<K: WrittenKey>(
    heap: Global,
    asks: Option<Asks>,
    lines: &[&[u8]],
) -> Result<Metered<K>, AllocError>
    ensures read { IfOk result (λ m. LogRead (λ k. K.text (K.coded k)) asks (map (λ line. line.now) lines.now) m.log.calls.items m.log.notes.items) }
    ensures layout { IfOk result (λ m. LayoutRead (greatest_of (counter_of asks)) asks m.layout) }
    ensures guarantee { IfOk result (λ m. Day K.coded (greatest_of (counter_of asks)) m.log.calls.items (map said m.answers.items)) }
    ensures answers { IfOk result (λ m. map said m.answers.items ≡ said_by (counter_of asks) K.coded m.log.calls.items) }
{
    match counter_of(asks) {
        CounterKind::SemiOrdered => meter_over(heap, SemiOrdered::new(), asks, lines),
        CounterKind::SharedDeduction => meter_over(heap, SharedDeduction::new(), asks, lines),
    }
}
