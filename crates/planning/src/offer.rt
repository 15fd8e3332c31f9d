// An offer: starts for the waiting charges of a feeder.
ghost use Rattle.rules.specs.Calls.{offer as offer_call, step};
ghost use Rattle.station.specs.View.{view, Valid};
ghost use Rattle.station.specs.Given.{Gives};
ghost use Rattle.planning.specs.Answers.{plan_answer};

use crate::Planned;
use crate::tested::tested;
use refusals::Refusal;
use station::Station;

pub fn offer(station: &mut Station, number: u32, starts: &[u32]) -> Result<Planned, Refusal>
    requires { Valid station.old }
    ensures { Gives (step (view station.old) (offer_call number starts.now)) (plan_answer result) station.new starts.now }
{
    let place = station.place_of(number)?;
    let clock = station.clock;
    if starts.len() != station.feeders[place].charges.waiting_count(clock) {
        return Err(Refusal::StartsNotAsMany);
    }
    let surroundings = station.surroundings(place);
    let beside = surroundings.lent();
    let charges = &mut station.feeders[place].charges;
    Ok(tested(charges, beside, starts, 0))
}
