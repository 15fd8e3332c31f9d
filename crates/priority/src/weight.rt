// What a charge weighs at a start.
ghost use Rattle.std.specs.Prelude.{◌≡◌, ◌+◌, ◌-◌, ◌*◌, ◌/◌, ◌≤◌};
ghost use Rattle.rules.specs.Site.{places};
ghost use Rattle.rules.specs.Priority.{weight_of};

use crate::crowd::Crowd;
use crate::table::WEIGHTS;
use charges::ends::end_of;

// "and the weight is 0 beyond"
pub fn weight(k: u64) -> u32
    ensures { (result ≡ weight_of k) × (result ≤ 1073741824) }
{
    WEIGHTS.get(k as usize).copied().unwrap_or(0)
}

// "m = max(0, d − start − p)"
pub fn slack(due: u32, start: u32, time: u32) -> u64
    ensures { (result ≡ due - (start + time)) × (result ≤ due) }
{
    u64::from(due).saturating_sub(end_of(start, time))
}

// What a charge weighs at a start, on a line with this crowd.
pub fn urgency(due: u32, time: u32, start: u32, crowd: Crowd) -> u32
    requires { (due ≤ 2000000) × (crowd.number ≤ places) × (1 ≤ crowd.total) }
    ensures { (result ≡ weight_of (256 * (due - (start + time)) * crowd.number / crowd.total)) × (result ≤ 1073741824) }
{
    let m = slack(due, start, time);
    // Late already: nothing to divide.
    if m == 0 {
        return weight(0);
    }
    weight(256 * m * u64::from(crowd.number) / u64::from(crowd.total))
}
