// The semi-ordered counter.
#![tactic(auto)]

pub mod counter;
pub mod entry;
mod line;

pub use counter::SemiOrdered;
pub use entry::Entry;
