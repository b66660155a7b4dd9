// Plans, frames and blocks, and the marks that a meter keeps of its window.
#![tactic(auto)]

pub mod layout;
pub mod marks;
pub mod plan;
