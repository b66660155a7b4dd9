// An entry of a Space-Saving counter.
ghost use Rattle.std.specs.Prelude.{◌≡◌, ◌+◌, ◌^◌, ◌<◌};
ghost use Rattle.fitting.specs.Entries.{counts};

use flow::code::Code;

// A code with its count. An entry with a count of 0 counts no code.
#[derive(Debug, Clone, Copy, Default, PartialEq, Eq, Hash)]
pub struct Entry {
    pub code: Code,
    pub count: u64,
}

// An entry that counts no code yet.
pub(crate) const VACANT: Entry = Entry {
    code: Code { high: 0, low: 0 },
    count: 0,
};

impl Entry {
    // Whether it counts the code.
    pub(crate) fn counts(self, code: Code) -> bool
        ensures { result ≡ counts code self }
    {
        self.count > 0 && code == self.code
    }

    // The entry as this code's, with the weight on top of what it has counted.
    pub(crate) fn credited(self, code: Code, weight: u64) -> Entry
        requires { self.count + weight < 2 ^ 64 }
        ensures { result ≡ record { code = code; count = self.count + weight } }
    {
        Entry {
            code,
            count: self.count + weight,
        }
    }
}
