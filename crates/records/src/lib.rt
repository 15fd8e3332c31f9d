// A station as the contents of an image, and back: the numbers of block 0 and the records of the charges, column by column.
#![tactic(auto)]

pub mod arrangement;
pub mod reading;
pub mod writing;
