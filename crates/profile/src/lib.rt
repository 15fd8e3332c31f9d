// How many points draw on each line, minute by minute: a list of steps, with one load more at a time, and what is read off it.
#![tactic(auto)]

pub mod balance;
pub mod loads;
pub mod steps;

// So many loads the charges of a feeder are, and those of all four.
const FEEDER_LOADS: usize = 180;

const LOADS: usize = 4 * FEEDER_LOADS;

// So many steps are enough for all charges of four feeders: one, and two more for each load.
pub const STEPS: usize = 1 + 2 * LOADS;

// So many are enough for the charges of one feeder.
pub const FEEDER_STEPS: usize = 1 + 2 * FEEDER_LOADS;
