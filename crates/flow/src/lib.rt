// Flow keys, refusals, and what every frame counter promises.
#![tactic(auto)]

pub mod account;
pub mod code;
pub mod counter;
pub mod key;
pub mod limits;
pub mod prefix;
pub mod refusal;
pub mod sizes;
pub mod tally;
