// Walks over the steps: where a step ends, the first minute that fails a test, the first without room under the cap of a line, and the first
// start that passes a test.
ghost use Rattle.std.specs.Prelude.{◌+◌, ◌<◌, ◌≤◌, max, length};
ghost use Rattle.profile.specs.Steps.{In};
ghost use Rattle.profile.specs.Shows.{last_minute, Formed};
ghost use Rattle.search.specs.Rooms.{End, Visit, Tells, FirstFailing, FailsPast, CanSeek, Tried, Tests, Settled, FirstPassing};
ghost use Rattle.search.specs.Caps.{under_in, room_under, CanRun};

use crate::caps::LineCaps;
use profile::loads::Draw;
use profile::steps::{Step, place};
use rules::OTHERS;
use std::ops::Range;

// Where step i ends, or `until`, where the walk ends.
pub fn step_end(steps: &[Step], i: usize, until: u32) -> u32
    requires { i < length steps.now }
    ensures { End steps.now i until result }
{
    steps
        .get(i + 1)
        .map_or(until, |next| next.minute.min(until))
}

// The first minute that fails, and its step.
#[derive(Clone, Copy)]
pub struct Failing {
    pub minute: u32,
    pub step: usize,
}

// The first failing one of these minutes, looked for from the first step on, in which the first of them lies. A step is asked where it
// fails from a minute on, if it does, when the walk comes to it: a search looks at no step twice, and so needs no list of answers.
pub fn first_failing_by<F: Fn(usize, Step, u32) -> Option<u32>>(
    steps: &[Step],
    first: usize,
    minutes: Range<u32>,
    fails: F,
) -> Option<Failing>
    requires walk { Formed steps.now × In steps.now first minutes.start }
    requires callable { (i : _) (step : _) (t : _) → Visit steps.now minutes.end i step t → F.pre fails i step t }
    ensures { (f : _) → Tells (F.post fails) steps.now minutes.end f → FirstFailing f steps.now minutes.start minutes.end result }
{
    // A slice from the first step on: `skip` would cost something at each step behind it.
    for (k, step) in steps[first..].iter().enumerate() {
        let t = step.minute.max(minutes.start);
        if minutes.end <= t {
            break;
        }
        let i = first + k;
        if let Some(minute) = fails(i, *step, t) {
            return Some(Failing { minute, step: i });
        }
    }
    None
}

// Where a step fails from its minute t on, if it does: there is room up to, and without, the minute `room`. Mostly that is behind the last
// minute of the walk, and then it doesn't matter where the step ends.
fn failing_minute(steps: &[Step], i: usize, t: u32, until: u32, room: u32) -> Option<u32>
    requires { i < length steps.now }
    ensures { FailsPast steps.now until i t room result }
{
    if until <= room {
        return None;
    }
    let minute = t.max(room);
    (minute < step_end(steps, i, until)).then_some(minute)
}

// The first of the load's minutes from `from` on without room for it under the cap of its line, whose number is known before the program
// runs: a walk looks at many steps, and a choice of the line at each of them costs more.
fn first_failing_on<const LINE: u32>(
    steps: &[Step],
    caps: &LineCaps,
    draw: Draw,
    first: usize,
    from: u32,
) -> Option<Failing>
    requires { CanRun steps.now draw.time from × In steps.now first from }
    ensures { FirstFailing (room_under steps.now caps.now LINE draw.rate) steps.now from (from + draw.time) result }
{
    let until = from + draw.time;
    // The line's number stands in the closure itself, since a closure that only reads it from a variable is one for all lines.
    first_failing_by(
        steps,
        first,
        from..until,
        |i, step, t|
            requires { i < length steps.now }
            ensures { FailsPast steps.entry.now until i t (under_in caps.entry.now LINE draw.rate step) result }
        {
            let draw = Draw { line: LINE, ..draw };
            let room = caps.under_in(step, draw);
            failing_minute(steps, i, t, until, room)
        },
    )
}

// The first of the load's minutes from `from` on without room for it under the cap of its line; what is no line goes, as in `under_in`, by
// what the other feeders draw.
pub fn first_failing(
    steps: &[Step],
    caps: &LineCaps,
    draw: Draw,
    first: usize,
    from: u32,
) -> Option<Failing>
    requires { CanRun steps.now draw.time from × In steps.now first from }
    ensures { FirstFailing (room_under steps.now caps.now draw.line draw.rate) steps.now from (from + draw.time) result }
{
    match draw.line {
        1 => first_failing_on::<1>(steps, caps, draw, first, from),
        2 => first_failing_on::<2>(steps, caps, draw, first, from),
        3 => first_failing_on::<3>(steps, caps, draw, first, from),
        _ => first_failing_on::<OTHERS>(steps, caps, draw, first, from),
    }
}

// The first start, not below the one given, that passes a test by the minutes below `until`: the answer passes, or it reaches `until` or
// behind. A start is tested from its step on, up to its first failing minute. After that the next candidate is the end of the minute's
// step, or `until`, since nothing is known from there on.
pub fn first_passing<F: Fn(u32, usize) -> Option<Failing>>(
    steps: &[Step],
    time: u32,
    start: u32,
    until: u32,
    test: F,
) -> u32
    requires seek { CanSeek steps.now time start }
    requires callable { (s : _) (i : _) → Tried steps.now time start until s i → F.pre test s i }
    requires settled { Settled (F.post test) steps.now time start until }
    ensures passing { (f : _) → Tests (F.post test) steps.now time start until f → FirstPassing f time start until result }
    ensures high { result ≤ max start (last_minute steps.now) }
{
    let mut i = place(steps, start);
    let mut s = start;
    while s + time <= until {
        let Some(failing) = test(s, i) else {
            return s;
        };
        i = failing.step + 1;
        s = steps[i].minute.min(until);
    }
    s
}
