// The priority of replan by lines: what a charge weighs at a start, and the charge that is taken there.
#![tactic(auto)]

pub mod choice;
pub mod crowd;
pub mod table;
pub mod weight;
