// What the programs read and print alike.
#![tactic(auto)]

pub mod failure;
pub mod kind;
