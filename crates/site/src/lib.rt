// The calls that name no feeder: a clock move, an enquiry, a board and a withdrawal.
#![tactic(auto)]

pub mod board;
pub mod clock;
pub mod enquiry;
pub mod withdraw;
