// The nine blocks of an image: numbers as bytes, the contents of the blocks and their checks, and how many blocks differ.
#![tactic(auto)]

pub mod bytes;
pub mod comparing;
pub mod contents;
