// The held charges in the order in which they are taken: by start, then ticket, and by latest start, then ticket; and the reports.
#![tactic(auto)]

pub mod line;
pub mod reports;
pub mod sorting;

ghost use Rattle.std.specs.Prelude.{◌≡◌};
ghost use Rattle.std.proofs.Math.IntN.{sub_ℕ};
ghost use Rattle.rules.specs.Charge.{waiting_charges};
ghost use Rattle.rules.specs.Replan.{by_latest_start};
ghost use Rattle.rules.specs.Calls.{reported};
ghost use Rattle.charges.specs.Arrays.{charges_of};
ghost use Rattle.charges.specs.Held.{Listed};
ghost use Rattle.queues.specs.Queues.{Ordered};

use crate::sorting::sorted_by_key;
use charges::Charges;
use charges::places::Places;

// d − p as a signed number: "A latest start may now be negative."
fn latest_start(due: u32, time: u32) -> i64
    ensures { result ≡ sub_ℕ due time }
{
    i64::from(due) - i64::from(time)
}

// The charges that a clock move passes, by start, then ticket.
pub fn by_start(charges: &Charges, clock: u32, target: u32) -> Places
    requires { Listed charges.now }
    ensures { Ordered charges.now (reported clock target (charges_of charges.now)) result }
{
    let passed = charges.passed_places(clock, target);
    sorted_by_key(&passed, |i| i64::from(charges.starts[i]))
}

// The waiting charges by latest start, then ticket.
pub fn by_latest_start(charges: &Charges, clock: u32) -> Places
    requires { Listed charges.now }
    ensures { Ordered charges.now (by_latest_start (waiting_charges clock (charges_of charges.now))) result }
{
    let waiting = charges.waiting_places(clock);
    sorted_by_key(
        &waiting,
        |i| latest_start(charges.dues[i], charges.times[i]),
    )
}
