// An entry of a semi-ordered counter.
ghost use Rattle.std.specs.Prelude.{◌≡◌, ◌^◌, ◌<◌, ◌≤◌};
ghost use Rattle.flow.specs.Limits.{most_weight, most_step, most_bound};
ghost use Rattle.semi.specs.Line.{raised, value};

use flow::code::Code;

// A code that counts `step · group + remainder`.
#[derive(Debug, Clone, Copy, PartialEq, Eq, Hash, Default)]
pub struct Entry {
    pub code: Code,
    pub group: u64,
    pub remainder: u32,
}

impl Entry {
    // The entry with the weight of a packet more.
    pub(crate) fn raised(self, step: u32, weight: u32) -> Entry
        requires steps { (0 < step) × (step ≤ most_step) }
        requires sizes { (self.remainder < step) × (self.group ≤ most_bound) }
        requires light { weight ≤ most_weight }
        ensures { result ≡ raised step weight self.code self }
    {
        let sum = self.remainder + weight;
        Entry {
            group: self.group + u64::from(sum / step),
            remainder: sum % step,
            ..self
        }
    }

    // The number that the entry stands for.
    pub(crate) fn worth(self, step: u32) -> u64
        requires { value step self < 2 ^ 64 }
        ensures { result ≡ value step self }
    {
        u64::from(step) * self.group + u64::from(self.remainder)
    }
}
