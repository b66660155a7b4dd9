// The bytes of a tape: its kinds and its commands.
#![tactic(auto)]

pub mod command;
pub mod kind;
pub mod reading;
