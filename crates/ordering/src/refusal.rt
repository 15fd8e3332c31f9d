// The refusals of an order.
ghost use Rattle.std.specs.Prelude.{◌≡◌};
ghost use Rattle.rules.specs.Basics.{first_of};
ghost use Rattle.refusals.specs.Refusals.{refusal_in};
ghost use Rattle.ordering.specs.Ordered.{order_rows};

use crate::Order;
use charges::PLACES;
use refusals::Refusal;
use search::limits::Limits;

// The first refusal of an order whose feeder is there: by the feeder's limits, how many charges it holds, and the next ticket.
pub fn order_refusal(limits: Limits, held: usize, next: u32, order: Order) -> Result<(), Refusal>
    ensures { refusal_in result ≡ first_of (order_rows limits held next order) }
{
    if !(1..=3).contains(&order.line) {
        return Err(Refusal::NoSuchLine);
    }
    if !(1..=1440).contains(&order.time) {
        return Err(Refusal::TimeOutOfRange);
    }
    if !(1..=2).contains(&order.rate) {
        return Err(Refusal::RateOutOfRange);
    }
    if !limits.allow_rate(order.rate) {
        return Err(Refusal::RateTooLarge);
    }
    if 2000000 < order.due {
        return Err(Refusal::DueTooLate);
    }
    if PLACES <= held {
        return Err(Refusal::FeederFull);
    }
    if 65535 < next {
        return Err(Refusal::TicketsSpent);
    }
    Ok(())
}
