// What a sitting does at a command that was read.
ghost use Rattle.std.specs.Prelude.{◌≡◌, ℕ, ◌≤◌, length, IfOk};
ghost use Rattle.flow.specs.Answers.{told, answer_map};
ghost use Rattle.flow.specs.Keys.{read_answer};
ghost use Rattle.flow.specs.Limits.{most_marks};
ghost use Rattle.meter.specs.declared.day.Call.TheVariants as call;
ghost use Rattle.meter.specs.Holding.{Holds};
ghost use Rattle.meter.specs.Ledgers.{Ledger};
ghost use Rattle.meter.specs.Meters.{state_of};
ghost use Rattle.meter.specs.States.{list_answer, count_of, table_leaves, scratch_leaves};
ghost use Rattle.sitting.specs.Courses.{calls, asked, stage_after};
ghost use Rattle.sitting.specs.Lines.{ListStands};
ghost use Rattle.sitting.specs.Sittings.{course_of, UnderLedgers, with_count, lent};
ghost use Rattle.sitting.specs.Turns.{answer_of, answer_in, meter_after, table_after, scratch_after};
ghost use Rattle.tape.specs.Commands.{command_map};
ghost use Rattle.tape.specs.declared.command.Command.TheVariants as command;

use crate::ending::Ending;
use crate::reply::Reply;
use crate::settings::{Settings, TrialLevel};
use crate::sitting::Sitting;
use crate::stage::Stage;
use flow::counter::FrameCounter;
use flow::key::FlowKey;
use flow::refusal::Refusal;
use meter::meter::Meter;
use meter::record::Record;
use tape::command::Command;

// Meters a packet of the flow whose key these bytes spell.
fn take_packet<K: FlowKey + Drop, C: FrameCounter>(
    meter: &mut Meter<C>,
    key: &[u8],
    weight: u32,
) -> Result<Reply<usize>, Refusal>
    ensures answer { let asks = answer_map (λ k. calls (call.Packet k weight)) (read_answer (K.spelled key.now)) in
        (l : Ledger) → Holds C.meaning (state_of C.meaning meter.old) l →
        told result ≡ with_count (answer_of C.meaning (state_of C.meaning meter.old) (command.Packet key.now weight) asks) }
    ensures no_list { (n : ℕ) → IfOk result (λ r. ListStands r n) }
    ensures state { let asks = answer_map (λ k. calls (call.Packet k weight)) (read_answer (K.spelled key.now)) in
        (l : Ledger) → Holds C.meaning (state_of C.meaning meter.old) l →
        state_of C.meaning meter.new ≡ meter_after C.meaning (state_of C.meaning meter.old) asks }
{
    let key = K::read(key)?;
    meter.packet(&key, weight).map(Reply::Took)
}

// Estimates the volume of the flow whose key these bytes spell.
fn tell_estimate<K: FlowKey + Drop, C: FrameCounter>(
    meter: &Meter<C>,
    key: &[u8],
) -> Result<Reply<usize>, Refusal>
    ensures { let asks = answer_map (λ k. calls (call.Estimate k)) (read_answer (K.spelled key.now)) in
        told result ≡ with_count (answer_of C.meaning (state_of C.meaning meter.now) (command.Estimate key.now) asks) }
{
    let key = K::read(key)?;
    meter.estimate(&key).map(Reply::Estimated)
}

// Lists at a level that stands for this list alone.
fn list_on_trial<C: FrameCounter>(
    meter: &Meter<C>,
    settings: &mut Settings,
    level: u64,
    scratch: &mut [u8],
    table: &mut [Record],
) -> Result<usize, Refusal>
    ensures answer { told result ≡ count_of (list_answer C.meaning (state_of C.meaning meter.now) level (length scratch.old) (length table.old)) }
    ensures table { table.new ≡ table_leaves (list_answer C.meaning (state_of C.meaning meter.now) level (length scratch.old) (length table.old)) table.old }
    ensures scratch { scratch.new ≡ scratch_leaves (list_answer C.meaning (state_of C.meaning meter.now) level (length scratch.old) (length table.old)) scratch.old }
    ensures few { IfOk result (λ n. n ≤ most_marks) }
    ensures settings { settings.new ≡ settings.old }
{
    let trial = TrialLevel::new(settings, level);
    meter.list(trial.level(), scratch, table)
}

impl<K: FlowKey + Drop, C: FrameCounter> Sitting<K, C> {
    // Does what a command asks. The stage and the command together decide what happens.
    pub(crate) fn obey(
        &mut self,
        command: Command<&[u8]>,
        scratch: &mut [u8],
        table: &mut [Record],
    ) -> Result<Reply<usize>, Refusal>
        ensures answer { let asks = command_map (λ key. key.now) command.entry in
            UnderLedgers C.meaning self.old (λ l. told result ≡ with_count (answer_in C.meaning K.spelled (course_of C.meaning self.old) asks (lent scratch.old table.old))) }
        ensures stage { let asks = command_map (λ key. key.now) command.entry in
            let answer = answer_in C.meaning K.spelled (course_of C.meaning self.old) asks (lent scratch.old table.old) in
            UnderLedgers C.meaning self.old (λ l. self.new.stage ≡ stage_after self.old.stage asks answer) }
        ensures meter { let asks = asked K.spelled (lent scratch.old table.old) self.old.stage (command_map (λ key. key.now) command.entry) in
            UnderLedgers C.meaning self.old (λ l. state_of C.meaning self.new.meter ≡ meter_after C.meaning (state_of C.meaning self.old.meter) asks) }
        ensures list { IfOk result (λ r. ListStands r (length table.new)) }
        ensures progress { self.new.progress ≡ self.old.progress }
        ensures table { let asks = command_map (λ key. key.now) command.entry in
            let answer = answer_in C.meaning K.spelled (course_of C.meaning self.old) asks (lent scratch.old table.old) in
            UnderLedgers C.meaning self.old (λ l. table.new ≡ table_after answer table.old) }
        ensures scratch { let asks = command_map (λ key. key.now) command.entry in
            let answer = answer_in C.meaning K.spelled (course_of C.meaning self.old) asks (lent scratch.old table.old) in
            UnderLedgers C.meaning self.old (λ l. scratch.new ≡ scratch_after answer scratch.old) }
    {
        match (&mut self.stage, command) {
            (Stage::Unplanned, Command::Plan(plan)) => {
                self.meter.plan(plan)?;
                // A plan was just accepted, so there is a unit.
                self.stage = Stage::Planned(Settings::of(self.meter.unit().unwrap_or(0)));
                Ok(Reply::Opened)
            }
            (Stage::Planned(_), Command::Packet(key, weight)) => {
                take_packet::<K, C>(&mut self.meter, key, weight)
            }
            (Stage::Planned(_), Command::Estimate(key)) => tell_estimate::<K, C>(&self.meter, key),
            (Stage::Planned(settings), Command::List) => {
                let count = self.meter.list(settings.level, scratch, table)?;
                Ok(Reply::Listed(count))
            }
            (Stage::Planned(_), Command::Restart) => self
                .meter
                .restart()
                .map(|()| Reply::Restarted),
            (Stage::Planned(settings), Command::Level(level)) => {
                self.meter.check_level(level)?;
                settings.level = level;
                Ok(Reply::LevelSet(level))
            }
            (Stage::Planned(settings), Command::Trial(level)) => {
                let count = list_on_trial(&self.meter, settings, level, scratch, table)?;
                Ok(Reply::Tried(level, count))
            }
            (Stage::Planned(_), Command::Close) => {
                self.stage = Stage::Done(Ending::Closed);
                Ok(Reply::Closed)
            }
            (Stage::Unplanned | Stage::Done(_), _) | (Stage::Planned(_), Command::Plan(_)) => {
                Err(Refusal::NotTakenNow)
            }
        }
    }
}
