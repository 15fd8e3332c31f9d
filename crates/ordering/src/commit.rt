// "The commit gives a ticket and exactly that start."
ghost use Rattle.std.specs.Prelude.{[]};
ghost use Rattle.rules.specs.Calls.{step};
ghost use Rattle.station.specs.View.{view, Valid};
ghost use Rattle.station.specs.Given.{Gives};
ghost use Rattle.ordering.specs.Ordered.{commit_of};
ghost use Rattle.ordering.specs.Answers.{commit_answer};

use crate::Order;
use crate::start::{Grant, granted};
use charges::Charge;
use refusals::Refusal;
use station::Station;

#[derive(Clone, Copy)]
pub struct Committed {
    pub ticket: u32,
    pub start: u32,
}

// A commit compares the start that was shown with what a preview shows now. No other start moves. The new charge is put behind the
// others of its feeder.
pub fn commit(station: &mut Station, order: Order, shown: u32) -> Result<Committed, Refusal>
    requires { Valid station.old }
    ensures { Gives (step (view station.old) (commit_of order shown)) (commit_answer result) station.new [] }
{
    let Grant { place, start } = granted(station, order)?;
    if start != shown {
        return Err(Refusal::StartChanged);
    }
    let ticket = station.next;
    let clock = station.clock;
    let feeder = &mut station.feeders[place];
    feeder.charges.push(Charge {
        ticket,
        line: order.line,
        order_minute: clock,
        time: order.time,
        active_time: order.time + feeder.tail,
        due: order.due,
        start,
        rate: order.rate,
    });
    station.next = ticket + 1;
    Ok(Committed { ticket, start })
}
