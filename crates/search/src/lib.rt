// Searches over a profile: the room that each step has for one more load, the caps of the lines, and where one more load fits.
#![tactic(auto)]

pub mod candidate;
pub mod caps;
pub mod fit;
pub mod limits;
pub mod start;
pub mod walk;
