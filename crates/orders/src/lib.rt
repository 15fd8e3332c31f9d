// What is sought for an order, and the search for its start, window by window.
#![tactic(auto)]

pub mod sought;
pub mod start;
