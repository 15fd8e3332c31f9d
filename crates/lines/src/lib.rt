// Replan by lines.
#![tactic(auto)]

pub mod next;
pub mod place;
pub mod rounds;
