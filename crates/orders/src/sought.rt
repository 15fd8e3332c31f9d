// What is sought for an order.
use profile::loads::Draw;
use search::limits::Limits;

// What is sought for an order on its feeder: a start from the clock on, for what its charge draws, within the limits.
#[derive(Clone, Copy)]
pub struct Sought {
    pub limits: Limits,
    pub clock: u32,
    pub draw: Draw,
}
