// The start of an order. The only feeder of a station lends what its own charges draw; of several all that the site draws is gathered first.
ghost use Rattle.std.specs.Prelude.{◌≡◌, ◌+◌, []};
ghost use Rattle.rules.specs.Basics.{at as found};
ghost use Rattle.rules.specs.Calls.{step};
ghost use Rattle.station.specs.View.{view, Valid};
ghost use Rattle.station.specs.Given.{Keeps};
ghost use Rattle.ordering.specs.Ordered.{sought_by, start_of, preview_of, Unrefused};
ghost use Rattle.ordering.specs.Grants.{Grants};
ghost use Rattle.ordering.specs.Answers.{preview_answer};

use crate::Order;
use crate::refusal::order_refusal;
use orders::sought::Sought;
use orders::start::earliest_start;
use profile::loads::Draw;
use profile::{FEEDER_STEPS, STEPS};
use refusals::Refusal;
use station::Station;

// Up to so many charges a feeder's profile is a short list, which takes less to clear: a step for the clock, and two for each charge.
const FEW: usize = 60;

const FEW_STEPS: usize = 2 * FEW + 1;

// What is sought for an order that is not refused, on its feeder at the place: its charge draws for the charging time and the tail.
fn sought(station: &Station, place: usize, order: Order) -> Sought
    requires { Unrefused station.now order × (order.feeder ≡ place + 1) }
    ensures { result ≡ sought_by station.now place order }
{
    let feeder = &station.feeders[place];
    Sought {
        limits: feeder.limits(station.site),
        clock: station.clock,
        draw: Draw {
            line: order.line,
            time: order.time + feeder.tail,
            rate: order.rate,
        },
    }
}

// The start of an order that is not refused, where its feeder is the only one.
fn start_alone(station: &Station, order: Order) -> u32
    requires { Unrefused station.now order × (station.now.count ≡ 1) }
    ensures { start_of station.now order ≡ found result }
{
    let own = sought(station, 0, order);
    let held = &station.feeders[0].charges;
    if held.held <= FEW {
        earliest_start::<FEW_STEPS>(own, held.loads())
    } else {
        earliest_start::<FEEDER_STEPS>(own, held.loads())
    }
}

// The start of an order that is not refused, among all that the site draws. Not inlined, since room for what is gathered is cleared at
// each call of the function it stands in.
#[inline(never)]
fn start_beside_others(station: &Station, place: usize, order: Order) -> u32
    requires { Unrefused station.now order × (order.feeder ≡ place + 1) }
    ensures { start_of station.now order ≡ found result }
{
    let drawn = station.drawn(place);
    earliest_start::<STEPS>(sought(station, place, order), drawn.loads())
}

// An order that nothing refuses: the place of its feeder, and its start.
#[derive(Clone, Copy)]
pub(crate) struct Grant {
    pub(crate) place: usize,
    pub(crate) start: u32,
}

// The first refusal of an order, or what a preview shows and a commit takes where nothing refuses it.
pub(crate) fn granted(station: &Station, order: Order) -> Result<Grant, Refusal>
    requires { Valid station.now }
    ensures { Grants station.now order result }
{
    let place = station.place_of(order.feeder)?;
    let feeder = &station.feeders[place];
    let limits = feeder.limits(station.site);
    order_refusal(limits, feeder.charges.held, station.next, order)?;
    let start = if station.count == 1 {
        start_alone(station, order)
    } else {
        start_beside_others(station, place, order)
    };
    Ok(Grant { place, start })
}

// The first refusal of an order, or its start.
pub fn preview(station: &Station, order: Order) -> Result<u32, Refusal>
    requires { Valid station.now }
    ensures { Keeps (step (view station.now) (preview_of order)) station.now (preview_answer result) [] }
{
    Ok(granted(station, order)?.start)
}
