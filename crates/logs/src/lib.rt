// Packet logs: the keys, headings and lines that people write, and the calls of a meter that they ask for.
#![tactic(auto)]

pub mod heading;
pub mod interval;
pub mod line;
pub mod log;
pub mod wording;
pub mod written;
