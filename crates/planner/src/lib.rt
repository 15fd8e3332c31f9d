// What stands beside a plan of a feeder, replan by latest start and the test of a plan.
#![tactic(auto)]

pub mod cause;
pub mod draws;
pub mod judge;
pub mod latest;
pub mod plan;
pub mod standing;
pub mod starts;

ghost use Rattle.planner.specs.Others.{Others, others_prop};

use charges::loads::Loads;
use search::limits::Limits;
pub use starts::waiting_starts;

// What a plan of a feeder stands beside: the clock, its limits, and what the other feeders draw, lent.
#[derive(Clone, Copy)]
pub struct Beside<'a> {
    pub clock: u32,
    pub limits: Limits,
    pub others: Loads<'a>,
    pub ghost others_fit: { Others others } by { others_prop others },
}
