// How far a sitting has come.
ghost use Rattle.std.specs.Prelude.{◌≡◌, ◌*◌, ◌<◌, ◌≤◌, length};
ghost use Rattle.flow.specs.Limits.{most_tape};
ghost use Rattle.sitting.specs.Lines.{longest_last_line, most_weight_written, last_line};
ghost use Rattle.sitting.specs.Courses.{packets_after, volume_after};

use crate::ending::Ending;
use crate::lines::{LONGEST_LAST_LINE, last_line};
use arrayvec::ArrayVec;

// The place on the tape, and the packets accepted so far with their volume.
// Each packet takes a byte of the tape at least, and its weight is written in four, so that the last line is short.
#[derive(Debug, Clone, Copy, PartialEq, Eq)]
pub(crate) struct Progress {
    place: usize,
    packets: u64,
    volume: u64,
    ghost within: { place ≤ most_tape },
    ghost few: { packets ≤ place },
    ghost light: { volume ≤ packets * most_weight_written },
}

impl Progress {
    // Nothing was read yet.
    pub(crate) fn new() -> Progress
        ensures place { result.place ≡ 0 }
        ensures packets { result.packets ≡ 0 }
        ensures volume { result.volume ≡ 0 }
    {
        Progress {
            place: 0,
            packets: 0,
            volume: 0,
        }
    }

    // The place on the tape.
    pub(crate) fn place(self) -> usize
        ensures { result ≡ self.place }
    {
        self.place
    }

    // The progress behind a command that ended there, with the weight of the packet if it was one that was accepted.
    pub(crate) fn past(self, end: usize, accepted: Option<u32>) -> Progress
        requires ahead { self.place < end }
        requires within { end ≤ most_tape }
        ensures place { result.place ≡ end }
        ensures packets { result.packets ≡ packets_after self.packets accepted }
        ensures volume { result.volume ≡ volume_after self.volume accepted }
    {
        let (packets, volume) = match accepted {
            Some(weight) => (self.packets + 1, self.volume + u64::from(weight)),
            None => (self.packets, self.volume),
        };
        Progress {
            place: end,
            packets,
            volume,
        }
    }

    // The last line of a sitting that ends here.
    pub(crate) fn last_line(self, ending: Ending) -> ArrayVec<u8, LONGEST_LAST_LINE>
        ensures line { result.items ≡ last_line ending self.packets self.volume }
        ensures short { length result.items ≤ longest_last_line }
    {
        last_line(ending, self.packets, self.volume)
    }
}
