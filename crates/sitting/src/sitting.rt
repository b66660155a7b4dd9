// Sittings.
ghost use Rattle.std.specs.Prelude.{◌≡◌, ◌≤◌, length};
ghost use Rattle.meter.specs.Holding.{Holds};
ghost use Rattle.meter.specs.Ledgers.{fresh};
ghost use Rattle.meter.specs.States.{unplanned};
ghost use Rattle.sitting.specs.Courses.{begun};
ghost use Rattle.sitting.specs.Lines.{longest_last_line};
ghost use Rattle.sitting.specs.Tapes.{last_text};
ghost use Rattle.sitting.specs.Sittings.{course_of};

use crate::lines::LONGEST_LAST_LINE;
use crate::progress::Progress;
use crate::stage::Stage;
use arrayvec::ArrayVec;
use flow::counter::FrameCounter;
use meter::meter::Meter;
use std::marker::PhantomData;

pub mod commands;
mod obeying;

// A sitting with one kind of key and one kind of counter: it reads a tape command by command, and a meter answers.
#[derive(Drop)]
pub struct Sitting<K, C> {
    keys: PhantomData<K>,
    meter: Meter<C>,
    stage: Stage,
    progress: Progress,
}

// What a begun sitting owes: its last line. Nothing but `Sitting::finish` takes a slip, and none can be let go.
pub struct Slip {
    owed: (),
}

impl<K, C: FrameCounter> Sitting<K, C> {
    // Begins a sitting with this kind of key and this kind of counter. Its meter takes the counter over.
    pub fn begin(counter: C) -> (Sitting<K, C>, Slip)
        ensures course { course_of C.meaning result.0 ≡ begun (unplanned (C.meaning.model counter)) }
        ensures holds { Holds C.meaning (course_of C.meaning result.0).meter (fresh (C.meaning.greatest (C.meaning.model counter))) }
    {
        let sitting = Sitting {
            keys: PhantomData,
            meter: Meter::new(counter),
            stage: Stage::Unplanned,
            progress: Progress::new(),
        };
        (sitting, Slip { owed: () })
    }
}

impl<K, C: FrameCounter + Drop> Sitting<K, C> {
    // Ends the sitting, and answers its last line.
    pub fn finish(self, slip: Slip) -> ArrayVec<u8, LONGEST_LAST_LINE>
        ensures line { result.items ≡ last_text (course_of C.meaning self) }
        ensures short { length result.items ≤ longest_last_line }
    {
        let Slip { owed: () } = slip;
        self.progress.last_line(self.stage.ending())
    }
}
