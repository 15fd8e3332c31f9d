// What a plan of a feeder stands beside.
ghost use Rattle.station.specs.Fitting.{OthersFit, others_fit_prop};

use charges::drawn::Drawn;
use search::limits::Limits;

// The clock, the limits of the feeder, and what the other feeders draw.
#[derive(Drop)]
pub struct Surroundings {
    pub clock: u32,
    pub limits: Limits,
    pub others: Drawn,
    pub ghost others_fit: { OthersFit others } by { others_fit_prop others },
}
