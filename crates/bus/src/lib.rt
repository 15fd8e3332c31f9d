// The C functions over an image (controller/togbeyis.h). A call restores the station of the image, makes the call and saves the next
// station over it. A refusal, whether of the restore or of the call, leaves the image, the lent list and all that stands behind a
// reference as they are. Each function returns 0, or the number of its refusal; a length or a number may be any of its type.
#![tactic(auto)]

pub mod board;
pub mod clock;
pub mod copy;
pub mod enquiry;
pub mod laws;
pub mod open;
pub mod order;
pub mod plan;
pub mod withdraw;
