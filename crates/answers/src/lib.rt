// The answers of a station as lines of text.
//
// No contract speaks of input or output: what is here takes and gives values.
#![tactic(auto)]

mod answer;

pub use answer::{print_answer, print_opening};
