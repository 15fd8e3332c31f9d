// Replan by latest start.
ghost use Rattle.rules.specs.Replan.{latest as latest_of};
ghost use Rattle.charges.specs.Arrays.{charges_of};
ghost use Rattle.planner.specs.Ready.{terms_of, Spacious, Ready};
ghost use Rattle.planner.specs.Answers.{Proposes};

use crate::Beside;
use crate::cause::Cause;
use crate::draws::draw_at;
use crate::standing::add_standing;
use crate::starts::waiting_starts;
use charges::starts::Starts;
use charges::{Charges, PLACES};
use profile::loads::Profile;
use queues::by_latest_start;
use search::start::earliest;

// Each waiting charge gets the smallest start with which what stands and those placed so far are sound. The answer: their starts in
// ticket order.
pub fn latest<const N: usize>(beside: Beside<'_>, charges: &Charges) -> Result<Starts, Cause>
    requires { Spacious beside N × Ready beside charges.now }
    ensures { Proposes beside.entry.clock charges.now (latest_of (terms_of beside.entry) beside.entry.clock (charges_of charges.now)) result }
{
    let queue = by_latest_start(charges, beside.clock);
    let mut profile = Profile::<N>::new(beside.clock);
    add_standing(&mut profile, beside, charges, beside.clock);
    let mut by_place = [0; PLACES];
    for place in queue.as_slice() {
        let draw = draw_at(charges, *place);
        let start = earliest(profile.steps(), beside.limits, draw).ok_or(Cause::NoStart)?;
        profile.add(draw, start);
        by_place[*place] = start;
    }
    Ok(waiting_starts(charges, beside.clock, &by_place))
}
