// Made streams of packets, and runs that meter them.
#![tactic(auto)]

pub mod arguments;
pub mod generator;
pub mod run;
pub mod stream;
