// What worksheets read and reckon: lines, the rule that applies, divisions and true volumes.
#![tactic(auto)]

pub mod division;
pub mod line;
pub mod semi_ordered;
pub mod shared_deduction;
pub mod totals;
