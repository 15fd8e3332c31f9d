// The smallest start of one more load.
ghost use Rattle.std.specs.Prelude.{◌≡◌, ◌-◌, ◌≤◌, max};
ghost use Rattle.profile.specs.Shows.{first_minute, last_minute, Formed};
ghost use Rattle.search.specs.Numbers.{SoundAlone};
ghost use Rattle.search.specs.Rooms.{Least};
ghost use Rattle.search.specs.Candidates.{fits_in};
ghost use Rattle.search.specs.Starts.{EndsEmpty, CanStart, UnsoundMinutes, EarliestStart};

use crate::candidate::first_fitting;
use crate::limits::Limits;
use profile::loads::Draw;
use profile::steps::Step;
use std::ops::Range;

// The first start, not below the clock, that reaches the end.
pub fn reaching(clock: u32, end: u32, time: u32) -> u32
    ensures { result ≡ max clock (end - time) }
{
    clock.max(end.saturating_sub(time))
}

// The minutes from the first up to the last in which the counts are not within both limits and the bound, if there is one; in the last
// step nothing is drawn.
pub fn unsound_minutes(steps: &[Step], limits: Limits) -> Option<Range<u32>>
    requires { Formed steps.now × EndsEmpty steps.now }
    ensures { UnsoundMinutes steps.now limits result }
{
    let first = steps.iter().position(|step| !limits.allow(*step))?;
    let last = steps.iter().rposition(|step| !limits.allow(*step))?;
    Some(steps[first].minute..steps[last + 1].minute)
}

// The smallest start, not below the one given, that fits in all its minutes. Every candidate is tested, since none ends behind the
// largest minute; a load of no minutes fits at once.
pub fn fitting_from(steps: &[Step], limits: Limits, draw: Draw, start: u32) -> u32
    requires { CanStart steps.now draw.time × SoundAlone limits draw × (first_minute steps.now ≤ start) × (start ≤ last_minute steps.now) }
    ensures { Least (fits_in steps.now limits draw) draw.time start result × (result ≤ last_minute steps.now) }
{
    if draw.time == 0 {
        return start;
    }
    first_fitting(steps, limits, draw, start, u32::MAX)
}

// The smallest start, not below the clock, with which the loads and one more are sound together. The loads may be
// unsound without it: then it has to cover each minute in which they are.
pub fn earliest(steps: &[Step], limits: Limits, draw: Draw) -> Option<u32>
    requires { CanStart steps.now draw.time × SoundAlone limits draw }
    ensures { EarliestStart steps.now limits draw result }
{
    let clock = steps[0].minute;
    let Some(unsound) = unsound_minutes(steps, limits) else {
        let s = fitting_from(steps, limits, draw, clock);
        return Some(s);
    };
    let start = reaching(clock, unsound.end, draw.time);
    let s = fitting_from(steps, limits, draw, start);
    (s <= unsound.start).then_some(s)
}
