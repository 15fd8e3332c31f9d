// The start of an order: the smallest one with which the held plan and the new charge are sound together.
ghost use Rattle.std.specs.Prelude.{◌≡◌, List};
ghost use Rattle.rules.specs.Basics.{at as found};
ghost use Rattle.rules.specs.Load.{Load};
ghost use Rattle.charges.specs.Drawn.{loads_lent};
ghost use Rattle.orders.specs.Asked.{start_sought, CanOrder};

use crate::sought::Sought;
use charges::loads::Loads;
use profile::loads::Profile;
use search::candidate::first_fitting;
use windows::add_started;

// So many minutes more than twice as far as the last one a window reaches.
const WIDER: u32 = 240;

// The smallest start with which the held plan and the order's charge are sound together. What the held charges draw is lent, with that of
// the other feeders as line 4. The first window ends with a charge that starts at the clock. Where it shows no start, the charges that
// begin in the next one are added, which reaches more than twice as far.
pub fn earliest_start<const N: usize>(sought: Sought, loads: Loads<'_>) -> u32
    requires { CanOrder sought N (loads_lent loads) }
    ensures { (others : List Load) → start_sought sought others (loads_lent loads.entry) ≡ found result }
{
    let clock = sought.clock;
    let draw = sought.draw;
    let mut profile = Profile::<N>::new(clock);
    let mut start = clock;
    let mut low = 0;
    let mut until = clock + draw.time;
    loop {
        add_started(&mut profile, loads, low..until);
        start = first_fitting(profile.steps(), sought.limits, draw, start, until);
        let reach = start + draw.time;
        if reach <= until {
            return start;
        }
        low = until;
        until = reach + (until - clock) + WIDER;
    }
}
