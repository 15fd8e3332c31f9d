// Tests of a charge: its fields, its rate and its times.
ghost use Rattle.std.specs.Prelude.{◌≡◌, ◌+◌, ◌<◌, ◌≤◌};
ghost use Rattle.charges.specs.Arrays.{charge_of};
ghost use Rattle.layout.specs.Validity.{fields_ranged, rate_right, times_right, charge_right};
ghost use Rattle.validity.specs.Settled.{single};

use charges::Charge;
use charges::ends::end_of;
use station::only::One;

// Line, p, d and rate in range.
#[tactic(auto, unfolding(layout::specs::Validity::fields_ranged, layout::specs::Validity::between))]
fn fields_ranged(charge: &Charge) -> bool
    ensures { result ≡ fields_ranged charge.now.line charge.now.time charge.now.due charge.now.rate }
{
    (1..=3).contains(&charge.line)
        && (1..=1440).contains(&charge.time)
        && charge.due <= 2000000
        && (1..=2).contains(&charge.rate)
}

// "Nor 18": the rate is within N, D and W.
#[tactic(auto, unfolding(layout::specs::Validity::rate_right))]
fn rate_right(charge: &Charge, one: &One) -> bool
    ensures { result ≡ rate_right one.now.feeder.limit one.now.feeder.bound one.now.site charge.now.rate }
{
    one.feeder.limits(one.site).allow_rate(charge.rate)
}

// Order minute, start and end beside the clock and the next ticket.
#[tactic(auto, unfolding(layout::specs::Validity::times_right))]
fn times_right(charge: &Charge, one: &One) -> bool
    requires { (1 ≤ one.now.next) × (charge.now.active_time ≡ charge.now.time + one.now.feeder.tail) }
    ensures { result ≡ times_right one.now.feeder.tail one.now.clock one.now.next charge.now.order_minute charge.now.start charge.now.time charge.now.active_time }
{
    let clock = u64::from(one.clock);
    charge.order_minute <= one.clock
        && charge.order_minute <= charge.start
        && clock < end_of(charge.start, charge.active_time)
        && end_of(charge.start, charge.time) <= clock + 1445 * (u64::from(one.next) - 1)
}

// One charge, but for its ticket.
#[tactic(auto, unfolding(layout::specs::Validity::charge_right))]
pub fn charge_right(charge: &Charge, one: &One) -> bool
    requires { (1 ≤ one.now.next) × (charge.now.active_time ≡ charge.now.time + one.now.feeder.tail) }
    ensures { result ≡ charge_right (single one.now) (charge_of charge.now) }
{
    fields_ranged(charge) && rate_right(charge, one) && times_right(charge, one)
}
