// The C functions of `bus`, exported from a static library (controller/togbeyis.h): each calls the function of its name with the same promise.
#![tactic(auto)]

pub mod board;
pub mod clock;
pub mod copy;
pub mod enquiry;
pub mod open;
pub mod order;
pub mod plan;
pub mod withdraw;
