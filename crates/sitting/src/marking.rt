// Whole tapes.
ghost use Rattle.std.specs.Prelude.{◌≡◌, length, IfOk, OnOk};
ghost use Rattle.sitting.specs.Markings.{Marked};
ghost use Rattle.sitting.specs.Tapes.{most_turns, left_by, Drives, turns, tape_turns, tape_text};
ghost use Rattle.sitting.specs.Sittings.{course_of, UnderLedgers, lent};
ghost use Rattle.sitting.specs.Turns.{text_left, table_left, scratch_left};

use crate::sitting::Sitting;
use flow::counter::FrameCounter;
use flow::key::FlowKey;
use flow::limits::MOST_TAPE;
use meter::record::Record;
use std::alloc::{AllocError, Global};
use tape::kind::TapeKind;

// The turns that are enough for every tape: two bytes name its kinds, every command takes a byte at least, and behind the last one a turn finds that the tape ends.
const MOST_TURNS: usize = MOST_TAPE - 2 + 1;

impl<K: FlowKey + TapeKind + Drop, C: FrameCounter + TapeKind> Sitting<K, C> {
    // Takes the commands of a tape until no more is taken, and answers their lines.
    pub(crate) fn drive(
        &mut self,
        heap: Global,
        tape: &[u8],
        text: &mut [u8],
        scratch: &mut [u8],
        table: &mut [Record],
    ) -> Result<Vec<u8>, AllocError>
        ensures { let course = course_of C.meaning self.old in
            let turns = turns K.spelled (lent scratch.old table.old) K.BYTES K.NUMBER C.NUMBER tape.now (length text.old) C.meaning most_turns course in
            UnderLedgers C.meaning self.old (λ l. IfOk result (λ v. Drives turns course (course_of C.meaning self.new) v.items text.old text.new scratch.old scratch.new table.old table.new)) }
    {
        let mut lines = Vec::new(heap);
        for _ in 0..MOST_TURNS {
            let Ok(bytes) = self.command(tape, text, scratch, table) else {
                return Ok(lines);
            };
            lines.extend_from_slice(&text[..bytes])?;
        }
        Ok(lines)
    }
}

// Marks a tape: begins a sitting over the counter, takes the commands of the tape until no more is taken, and finishes the sitting. Answers all its lines, the last one too.
pub fn mark_tape<K: FlowKey + TapeKind + Drop, C: FrameCounter + TapeKind + Drop>(
    heap: Global,
    counter: C,
    tape: &[u8],
    text: &mut [u8],
    scratch: &mut [u8],
    table: &mut [Record],
) -> Result<Vec<u8>, AllocError>
    ensures lines { IfOk result (λ v. v.items ≡ tape_text K.spelled (lent scratch.old table.old) K.BYTES K.NUMBER C.NUMBER tape.now (length text.old) C.meaning (C.meaning.model counter)) }
    ensures guarantee { let greatest = C.meaning.greatest (C.meaning.model counter) in
        IfOk result (λ v. Marked K.spelled (lent scratch.old table.old) K.BYTES K.NUMBER C.NUMBER tape.now (length text.old) greatest v.items) }
    ensures text { let turns = tape_turns K.spelled (lent scratch.old table.old) K.BYTES K.NUMBER C.NUMBER tape.now (length text.old) C.meaning (C.meaning.model counter) in
        OnOk result (text.new ≡ left_by text_left turns text.old) }
    ensures scratch { let turns = tape_turns K.spelled (lent scratch.old table.old) K.BYTES K.NUMBER C.NUMBER tape.now (length text.old) C.meaning (C.meaning.model counter) in
        OnOk result (scratch.new ≡ left_by scratch_left turns scratch.old) }
    ensures table { let turns = tape_turns K.spelled (lent scratch.old table.old) K.BYTES K.NUMBER C.NUMBER tape.now (length text.old) C.meaning (C.meaning.model counter) in
        OnOk result (table.new ≡ left_by table_left turns table.old) }
{
    let (mut sitting, slip) = Sitting::<K, C>::begin(counter);
    let driven = sitting.drive(heap, tape, text, scratch, table);
    let last = sitting.finish(slip);
    let mut lines = driven?;
    lines.extend_from_slice(&last)?;
    Ok(lines)
}
