// The feeder that holds a ticket.
ghost use Rattle.station.specs.View.{Formed};
ghost use Rattle.station.specs.Holders.{HolderOf};

use crate::Station;

// The place of a feeder, and of a charge that it holds.
#[derive(Clone, Copy)]
pub struct Holder {
    pub feeder: usize,
    pub place: usize,
}

impl Station {
    // The first feeder that holds the ticket, with the place of its charge; none where no feeder does.
    pub fn holder(&self, ticket: u32) -> Option<Holder>
        requires { Formed self.now }
        ensures { HolderOf self.now ticket result }
    {
        for (feeder, held) in self.feeders().iter().enumerate() {
            if let Some(place) = held.charges.place_of(ticket) {
                return Some(Holder { feeder, place });
            }
        }
        None
    }
}
