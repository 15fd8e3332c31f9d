// The feeders of a site, the one that is named, and the limits of a feeder.
ghost use Rattle.std.specs.Prelude.{◌≡◌, take};
ghost use Rattle.station.specs.View.{Formed, PlaceOf, limits_for};

use crate::{Feeder, Station};
use refusals::Refusal;
use search::limits::Limits;

impl Station {
    // Those of the site: the first `count`.
    pub fn feeders(&self) -> &[Feeder]
        requires { Formed self.now }
        ensures { result.now ≡ take self.now.count self.now.feeders }
    {
        &self.feeders[..self.count]
    }

    // "names its feeder, from 1": the place of the feeder with this number.
    pub fn place_of(&self, number: u32) -> Result<usize, Refusal>
        ensures { PlaceOf self.now.count number result }
    {
        let place = number as usize;
        if !(1..=self.count).contains(&place) {
            return Err(Refusal::NoSuchFeeder);
        }
        Ok(place - 1)
    }
}

impl Feeder {
    // What a plan of the feeder has to keep to, on a site with the limit W.
    pub fn limits(&self, site: u32) -> Limits
        ensures { result ≡ limits_for self.now site }
    {
        Limits {
            limit: self.limit,
            bound: self.bound,
            site,
        }
    }
}
