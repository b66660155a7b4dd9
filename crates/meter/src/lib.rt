// The window meter: volumes of flows over the last packets, over any kind of key and any kind of counter.
#![tactic(auto)]

pub mod day;
pub mod meter;
pub mod record;
