// The charges that start in a window of minutes, put into a profile.
#![tactic(auto)]

ghost use Rattle.charges.specs.Drawn.{loads_lent};
ghost use Rattle.windows.specs.Windows.{CanAddStarted, StartedAdded};

use charges::loads::Loads;
use profile::loads::{Draw, Profile};
use std::ops::Range;

// Adds those of the loads that start in the window.
pub fn add_started<const N: usize>(profile: &mut Profile<N>, loads: Loads<'_>, window: Range<u32>)
    requires { CanAddStarted profile.old N (loads_lent loads) window.start window.end }
    ensures { StartedAdded profile.old profile.new (loads_lent loads.entry) window.start window.end }
{
    for (i, start) in loads.starts.iter().enumerate() {
        if window.contains(start) {
            let draw = Draw {
                line: loads.lines[i],
                time: loads.active_times[i],
                rate: loads.rates[i],
            };
            profile.add(draw, *start);
        }
    }
}
