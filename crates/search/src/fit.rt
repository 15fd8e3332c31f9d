// Where one more load fits under the cap of its line and the site's limit: the run of minutes with room, and the smallest start.
ghost use Rattle.std.specs.Prelude.{◌≡◌, ◌≤◌, min};
ghost use Rattle.rules.specs.Basics.{run_of};
ghost use Rattle.rules.specs.Load.{IsLine};
ghost use Rattle.profile.specs.Shows.{first_minute, last_minute};
ghost use Rattle.search.specs.Starts.{CanStart};
ghost use Rattle.search.specs.Caps.{room_under, CanRun, CanCap, EarliestStartUnder};

use crate::caps::LineCaps;
use crate::walk::{first_failing, first_passing};
use profile::loads::Draw;
use profile::steps::{Step, place};

// How many of the load's minutes from `from` on have room for it, up to the first that has none: a shorter charge of its rate
// fits there exactly when its time is not above that.
pub fn run_under(steps: &[Step], caps: &LineCaps, draw: Draw, from: u32) -> u32
    requires { CanRun steps.now draw.time from }
    ensures { result ≡ run_of (room_under steps.now caps.now draw.line draw.rate) draw.time from }
{
    let first = place(steps, from);
    match first_failing(steps, caps, draw, first, from) {
        Some(failing) => failing.minute - from,
        None => draw.time,
    }
}

// The smallest start with the line's count, itself included, at or below the cap in all its minutes, and the site's at or below
// its limit; not below `from`, or the last change, from which on nothing is drawn. Every start is tested, since none ends behind the
// largest minute.
pub fn next_under(steps: &[Step], caps: &LineCaps, draw: Draw, from: u32) -> u32
    requires { CanStart steps.now draw.time × IsLine draw.line × CanCap caps.now draw.line draw.rate × (first_minute steps.now ≤ from) }
    ensures { EarliestStartUnder steps.now caps.now draw.line draw.time draw.rate (min from (last_minute steps.now)) result }
{
    let last = steps[steps.len() - 1].minute;
    let start = from.min(last);
    first_passing(steps, draw.time, start, u32::MAX, |s, i| {
        first_failing(steps, caps, draw, i, s)
    })
}
