// Withdrawing an order: a waiting charge is removed where the rest of its feeder's plan is sound.
ghost use Rattle.std.specs.Prelude.{[]};
ghost use Rattle.rules.specs.Calls.{withdraw as withdraw_call, step};
ghost use Rattle.station.specs.View.{view, Valid};
ghost use Rattle.station.specs.Given.{Gives};
ghost use Rattle.site.specs.Answers.{withdrawal_answer};

use plans::plan_sound;
use refusals::Refusal;
use station::Station;

// From the feeder that holds the ticket. A start equal to the clock still waits. No other start moves, and the ticket is not given again.
pub fn withdraw(station: &mut Station, ticket: u32) -> Result<(), Refusal>
    requires { Valid station.old }
    ensures { Gives (step (view station.old) (withdraw_call ticket)) (withdrawal_answer result) station.new [] }
{
    let holder = station.holder(ticket).ok_or(Refusal::NotHeld)?;
    let charges = &station.feeders[holder.feeder].charges;
    if charges.starts[holder.place] < station.clock {
        return Err(Refusal::AlreadyBegun);
    }
    let kept = charges.without(ticket);
    let surroundings = station.surroundings(holder.feeder);
    if !plan_sound(surroundings.lent(), &kept) {
        return Err(Refusal::RestUnsound);
    }
    station.feeders[holder.feeder].charges = kept;
    Ok(())
}
