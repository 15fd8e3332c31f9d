// What an opening answers: the bound D of each feeder.
use crate::{FEEDERS, Station};

// The bounds of the feeders up to the count.
#[derive(Clone, Copy)]
pub struct Opened {
    pub count: usize,
    pub bounds: [u32; FEEDERS],
}

impl Station {
    ghost use Rattle.std.specs.Prelude.{◌≡◌, length, take};
    ghost use Rattle.rules.specs.Calls.{opened};
    ghost use Rattle.station.specs.Opened.{opened_of, bounds_of};

    pub(crate) fn opened(&self) -> Opened
        requires { length self.now.feeders ≡ 4 }
        ensures { opened_of result ≡ opened (take self.now.count (bounds_of self.now)) }
    {
        Opened {
            count: self.count,
            bounds: self.feeders.each_ref().map(|feeder| feeder.bound),
        }
    }
}
