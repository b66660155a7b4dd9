// The packets that a counter has taken since its last flush.
ghost use Rattle.std.specs.Prelude.{◌≡◌, ◌*◌, ◌≤◌};
ghost use Rattle.flow.specs.Limits.{most_packets, most_weight};

use crate::limits::{MOST_PACKETS, MOST_WEIGHT};
use crate::refusal::Refusal;

// How many packets there are, and their total weight.
#[derive(Debug, Clone, Copy, PartialEq, Eq, Hash)]
pub struct Tally {
    packets: u32,
    volume: u64,
    ghost few: { packets ≤ most_packets },
    ghost light: { volume ≤ packets * most_weight },
}

impl Tally {
    ghost use Rattle.flow.specs.Tallies.{Tallied};

    // No packets.
    pub fn new() -> Tally
        ensures packets { result.packets ≡ 0 }
        ensures volume { result.volume ≡ 0 }
    {
        Tally {
            packets: 0,
            volume: 0,
        }
    }

    // How many packets there are.
    pub fn packets(self) -> u32
        ensures { result ≡ self.packets }
    {
        self.packets
    }

    // Their total weight.
    pub fn volume(self) -> u64
        ensures { result ≡ self.volume }
    {
        self.volume
    }

    // With one more packet, of this weight.
    pub fn with(self, weight: u32) -> Result<Tally, Refusal>
        ensures { Tallied self weight result }
    {
        if !(1..=MOST_WEIGHT).contains(&weight) {
            return Err(Refusal::WeightOutOfRange);
        }
        if self.packets == MOST_PACKETS {
            return Err(Refusal::CounterFull);
        }
        Ok(Tally {
            packets: self.packets + 1,
            volume: self.volume + u64::from(weight),
        })
    }
}
