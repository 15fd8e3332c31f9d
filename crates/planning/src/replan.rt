// Both replans of a feeder.
ghost use Rattle.std.specs.Prelude.{[]};
ghost use Rattle.rules.specs.Calls.{replan_latest, replan_lines, step};
ghost use Rattle.station.specs.View.{view, Valid};
ghost use Rattle.station.specs.Given.{Gives};
ghost use Rattle.planning.specs.Answers.{plan_answer};

use crate::Planned;
use crate::tested::replanned;
use plans::{by_lines, latest};
use refusals::Refusal;
use station::Station;

// "Replan by latest start" makes no rounds.
pub fn replan_latest(station: &mut Station, number: u32) -> Result<Planned, Refusal>
    requires { Valid station.old }
    ensures { Gives (step (view station.old) (replan_latest number)) (plan_answer result) station.new [] }
{
    let place = station.place_of(number)?;
    let surroundings = station.surroundings(place);
    let beside = surroundings.lent();
    let charges = &mut station.feeders[place].charges;
    let proposed = latest(beside, charges);
    Ok(replanned(charges, beside, proposed, 0))
}

pub fn replan_lines(station: &mut Station, number: u32, allowance: u32) -> Result<Planned, Refusal>
    requires { Valid station.old }
    ensures { Gives (step (view station.old) (replan_lines number allowance)) (plan_answer result) station.new [] }
{
    let place = station.place_of(number)?;
    if !(1..=1000).contains(&allowance) {
        return Err(Refusal::AllowanceOutOfRange);
    }
    let surroundings = station.surroundings(place);
    let beside = surroundings.lent();
    let charges = &mut station.feeders[place].charges;
    let made = by_lines(beside, charges, allowance);
    Ok(replanned(charges, beside, made.proposed, made.rounds))
}
