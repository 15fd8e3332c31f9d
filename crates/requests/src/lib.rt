// The requests to a station: a call is read from a line of text, or the reason printed why it is none.
//
// No contract speaks of input or output: what is here takes and gives values.
#![tactic(auto)]

mod error;
mod request;
mod word;

pub use error::print_error;
pub use request::{LENT, LONGEST, MOST, ReadPlaces, Reason, Request, places_lent, read_request};
