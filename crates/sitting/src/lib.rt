// Sittings: tapes marked line by line.
#![tactic(auto)]

pub mod ending;
pub mod lines;
pub mod marking;
mod progress;
pub mod reply;
pub mod settings;
pub mod sitting;
pub mod stage;
