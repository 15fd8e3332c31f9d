// The starts that a replan gives, in ticket order.
ghost use Rattle.planner.specs.Starts.{WaitingStarts};

use charges::starts::Starts;
use charges::{Charges, PLACES};

// The starts of the waiting charges, in ticket order, from those that stand at the charges' places.
pub fn waiting_starts(charges: &Charges, clock: u32, by_place: &[u32; PLACES]) -> Starts
    ensures { WaitingStarts clock charges.now by_place.now result }
{
    let mut starts = Starts::new();
    for place in charges.waiting_places(clock).as_slice() {
        starts.push(by_place[*place]);
    }
    starts
}
