// The command call.
ghost use Rattle.std.specs.Prelude.{◌≡◌, ℕ, ◌<◌, ◌≤◌, length, take, IfOk, OnErr};
ghost use Rattle.flow.specs.Answers.{told, answered, refused, Unchanged};
ghost use Rattle.flow.specs.Limits.{least_text, most_tape};
ghost use Rattle.meter.specs.Holding.{Holds};
ghost use Rattle.sitting.specs.Courses.{accepted};
ghost use Rattle.sitting.specs.Markings.{with_ledger, ledger_left, PrintsRight};
ghost use Rattle.sitting.specs.Sittings.{course_of, UnderLedgers, lent, turn_at, turn_of};
ghost use Rattle.sitting.specs.Turns.{Follows};
ghost use Rattle.tape.specs.Readings.{placed_found};

use crate::ending::Ending;
use crate::lines::{print_refusal, print_reply};
use crate::reply::Reply;
use crate::sitting::Sitting;
use crate::stage::Stage;
use flow::counter::FrameCounter;
use flow::key::FlowKey;
use flow::limits::LEAST_TEXT;
use flow::refusal::Refusal;
use meter::record::Record;
use tape::command::Command;
use tape::kind::TapeKind;
use tape::reading::{Placed, next_command};

// The weight of the packet that a command and its answer accept, if they do.
fn accepted(command: Command<&[u8]>, answer: Result<Reply<usize>, Refusal>) -> Option<u32>
    ensures { result ≡ accepted command.entry (told answer) }
{
    match (command, answer) {
        (Command::Packet(_, weight), Ok(_)) => Some(weight),
        _ => None,
    }
}

impl<K: FlowKey + TapeKind + Drop, C: FrameCounter + TapeKind> Sitting<K, C> {
    // Reads the next command of the tape and answers it: its lines stand at the front of the text then, and their length is told.
    // Where the text is too short or the sitting is done, nothing is read or written.
    pub fn command(
        &mut self,
        tape: &[u8],
        text: &mut [u8],
        scratch: &mut [u8],
        table: &mut [Record],
    ) -> Result<usize, Refusal>
        ensures turn { let turn = turn_of C.meaning K.spelled K.BYTES K.NUMBER C.NUMBER self.old tape.now text.old scratch.old table.old in
            UnderLedgers C.meaning self.old (λ l.
            Follows turn (told result) (course_of C.meaning self.old) (course_of C.meaning self.new) text.old text.new scratch.old scratch.new table.old table.new) }
        ensures unchanged { Unchanged result self.old self.new }
        ensures nothing_touched { OnErr result ((text.new ≡ text.old) × (scratch.new ≡ scratch.old) × (table.new ≡ table.old)) }
        ensures refusals { let turn = turn_of C.meaning K.spelled K.BYTES K.NUMBER C.NUMBER self.old tape.now text.old scratch.old table.old in
            (n : ℕ) → turn ≡ refused n → told result ≡ refused n }
        ensures guarantee { UnderLedgers C.meaning self.old (λ l.
            let course = with_ledger (course_of C.meaning self.old) l in
            IfOk result (λ n. PrintsRight K.spelled (lent scratch.old table.old) K.BYTES K.NUMBER C.NUMBER tape.now course (take n text.new))) }
        ensures holds { let course = course_of C.meaning self.old in
            let turn = turn_of C.meaning K.spelled K.BYTES K.NUMBER C.NUMBER self.old tape.now text.old scratch.old table.old in
            UnderLedgers C.meaning self.old (λ l.
            Holds C.meaning (course_of C.meaning self.new).meter (ledger_left K.spelled (lent scratch.old table.old) K.BYTES K.NUMBER C.NUMBER tape.now course turn l)) }
        ensures within { IfOk result (λ n. n ≤ length text.old) }
    {
        if text.len() < LEAST_TEXT {
            return Err(Refusal::TextTooShort);
        }
        if let Stage::Done(_) = self.stage {
            return Err(Refusal::NotTakenNow);
        }
        match next_command::<K, C>(tape, self.progress.place()) {
            Ok(placed) => Ok(self.take(placed, text, scratch, table)),
            Err(fault) => {
                self.stage = Stage::Done(Ending::Broken);
                Ok(print_refusal(fault.refusal, fault.offset, text))
            }
        }
    }

    // Does what a command that was read asks, goes on behind it, and prints the answer.
    fn take(
        &mut self,
        placed: Placed<&[u8]>,
        text: &mut [u8],
        scratch: &mut [u8],
        table: &mut [Record],
    ) -> usize
        requires ahead { self.old.progress.place < placed.end }
        requires within { placed.end ≤ most_tape }
        requires room { least_text ≤ length text.old }
        ensures within { result ≤ length text.old }
        ensures turn { let turn = turn_at C.meaning K.spelled self.old (placed_found (λ key. key.now) placed.entry) scratch.old table.old in
            UnderLedgers C.meaning self.old (λ l.
            Follows (answered turn) (answered result) (course_of C.meaning self.old) (course_of C.meaning self.new) text.old text.new scratch.old scratch.new table.old table.new) }
    {
        let answer = self.obey(placed.command, scratch, table);
        self.progress = self
            .progress
            .past(placed.end, accepted(placed.command, answer));
        match answer {
            Ok(reply) => print_reply(reply, table, text),
            Err(refusal) => print_refusal(refusal, placed.offset, text),
        }
    }
}
