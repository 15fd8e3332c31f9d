// The only feeder of a station, as an image has it.
ghost use Rattle.std.specs.Prelude.{◌≡◌};
ghost use Rattle.station.specs.View.{Formed, station_of, OnlyOf};
ghost use Rattle.station.specs.Opened.{OnlyLeast};

use crate::open::{LEAST, Settings};
use crate::{Feeder, Station};

// One feeder of a station, with what it shares with the others: the site's limit, the clock and the next ticket. Images are of one
// feeder, and a copy of the places of four costs more than most of what is done with one.
#[derive(Clone, Copy)]
pub struct One {
    pub site: u32,
    pub clock: u32,
    pub next: u32,
    pub feeder: Feeder,
}

impl Station {
    // The only feeder; none where there are several.
    pub fn only(&self) -> Option<One>
        requires { Formed self.now }
        ensures { OnlyOf self.now result }
    {
        if self.count != 1 {
            return None;
        }
        Some(One {
            site: self.site,
            clock: self.clock,
            next: self.next,
            feeder: self.feeders[0],
        })
    }

    // The station of which this is the only feeder.
    pub fn of_only(one: One) -> Station
        ensures { result ≡ station_of one }
    {
        let unused = Settings::default().fresh();
        Station {
            count: 1,
            site: one.site,
            clock: one.clock,
            next: one.next,
            feeders: [one.feeder, unused, unused, unused],
        }
    }
}

impl One {
    // The only feeder of the least station, where nobody needs the places of four: beside a refused restore.
    pub fn least() -> One
        ensures { OnlyLeast result }
    {
        One {
            site: LEAST.site,
            clock: 0,
            next: 1,
            feeder: LEAST.settings[0].fresh(),
        }
    }
}
