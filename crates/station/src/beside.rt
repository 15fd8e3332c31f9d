// What a plan of a feeder stands beside, gathered and lent.
ghost use Rattle.std.specs.Prelude.{◌<◌};
ghost use Rattle.station.specs.View.{Valid};
ghost use Rattle.station.specs.Beside.{Surrounds, Lends};

use crate::Station;
use crate::surroundings::Surroundings;
use planner::Beside;

impl Station {
    // What a plan of the feeder at the place stands beside.
    pub fn surroundings(&self, place: usize) -> Surroundings
        requires { Valid self.now × (place < self.now.count) }
        ensures { Surrounds self.now place result }
    {
        Surroundings {
            clock: self.clock,
            limits: self.feeders[place].limits(self.site),
            others: self.rest(place),
        }
    }
}

impl Surroundings {
    // The same, lent to a planner.
    pub fn lent(&self) -> Beside<'_>
        ensures { Lends self.now result }
    {
        Beside {
            clock: self.clock,
            limits: self.limits,
            others: self.others.loads(),
        }
    }
}
