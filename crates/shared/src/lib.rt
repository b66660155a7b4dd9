// The shared-deduction counter.
#![tactic(auto)]

pub mod counter;
pub mod place;
mod places;

pub use counter::SharedDeduction;
pub use place::{Held, Place};
