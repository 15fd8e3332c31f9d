// What the other feeders draw, and all that the site draws as a feeder sees it.
ghost use Rattle.std.specs.Prelude.{◌≡◌, map, ◌+◌, ◌<◌, ◌≤◌, length};
ghost use Rattle.rules.specs.Load.{elsewhere};
ghost use Rattle.rules.specs.Charge.{loads_of, seen};
ghost use Rattle.rules.specs.Site.{others_of, limits_of};
ghost use Rattle.charges.specs.Arrays.{charges_of};
ghost use Rattle.station.specs.View.{feeder_at, view, Formed};

use crate::Station;
use charges::drawn::Drawn;

impl Station {
    // What the feeders but that at the place draw, as a fourth line.
    pub fn rest(&self, place: usize) -> Drawn
        requires { Formed self.now × (place < self.now.count) }
        ensures { (result ≡ map elsewhere (loads_of (others_of (view self.now) (place + 1)))) × (length result ≤ 540) }
    {
        let mut rest = Drawn::none();
        for (i, other) in self.feeders().iter().enumerate() {
            if i != place {
                rest.append(&other.charges, false);
            }
        }
        rest
    }

    // All that the site draws, as the feeder at the place sees it: its own charges behind the others.
    pub fn drawn(&self, place: usize) -> Drawn
        requires { Formed self.now × (place < self.now.count) }
        ensures { (result ≡ seen (limits_of (view self.now) (place + 1)) (charges_of (feeder_at self.now place).charges)) × (length result ≤ 720) }
    {
        let mut drawn = self.rest(place);
        drawn.append(&self.feeders[place].charges, true);
        drawn
    }
}
