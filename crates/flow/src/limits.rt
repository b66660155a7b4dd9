// The limits of counters, plans, lists and tapes.

// The places of a counter.
pub const MOST_PLACES: usize = 256;

// The greatest step that a kind may allow.
pub const MOST_STEP: u32 = 2_097_153;

// The weight of a packet.
pub const MOST_WEIGHT: u32 = 1_048_576;

// The packets that a counter takes between two flushes.
pub const MOST_PACKETS: u32 = 16_777_216;

// The packets of a window.
pub const MOST_WINDOW: u32 = 16_777_216;

// The marks of a meter: two frames with fewer marks each than there are places.
pub const MOST_MARKS: usize = 510;

// The bytes of scratch that a list asks for.
pub const LEAST_SCRATCH: usize = 510;

// The units of the least level of a list.
pub const LEAST_LEVEL_UNITS: u64 = 3;

// The units by less than which an estimate is above the true volume.
pub const ERROR_UNITS: u64 = 4;

// The bytes of a tape.
pub const MOST_TAPE: usize = 65_536;

// The bytes of text area that a command asks for: more than the lines of the longest list.
pub const LEAST_TEXT: usize = 40_960;
