// Whether the only feeder of a station is one whose image restore accepts: its settings, its charges, its plan.
#![tactic(auto)]

pub mod header;
pub mod ranges;
pub mod records;

ghost use Rattle.std.specs.Prelude.{◌≡◌};
ghost use Rattle.layout.specs.Validity.{is_valid};
ghost use Rattle.station.specs.View.{view, station_of};
ghost use Rattle.validity.specs.Settled.{Settled};

use crate::records::records_right;
use charges::loads::Loads;
use planner::Beside;
use planner::plan::plan_sound;
use profile::FEEDER_STEPS;
use station::only::One;

// The rest of the test for a feeder whose settings passed theirs.
pub fn is_valid(one: &One) -> bool
    requires { Settled one.now }
    ensures { result ≡ is_valid (view (station_of one.now)) }
{
    if !records_right(one) {
        return false;
    }
    let limits = one.feeder.limits(one.site);
    // There is no other feeder that could draw.
    let beside = Beside {
        clock: one.clock,
        limits,
        others: Loads::none(),
    };
    plan_sound::<FEEDER_STEPS>(beside, &one.feeder.charges)
}
