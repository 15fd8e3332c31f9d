// The test of an order's candidate start, which ends at its first failing minute, and the first start that fits.
ghost use Rattle.std.specs.Prelude.{◌≡◌, ◌+◌, ◌-◌, ◌≤◌, max, IfOk, IfErr, MatchResult};
ghost use Rattle.profile.specs.Shows.{last_minute};
ghost use Rattle.search.specs.Candidates.{CanTest, EachFits, FailsFirst, TestShows};
ghost use Rattle.search.specs.Candidates.{CanFit, FirstFitting};

use crate::limits::Limits;
use crate::walk::{Failing, first_failing_by, first_passing};
use profile::loads::Draw;
use profile::steps::Step;

/// What the test of a candidate start answers: whether the start fits, or its first failing minute, and how many minutes it looked at.
#[derive(Clone, Copy)]
pub struct TestedStart {
    pub verdict: Result<(), Failing>,
    pub looked: u32,
}

/// Tests a candidate start that lies in the first step, up to its first failing minute. A step fails at once or nowhere, since its counts
/// are the same in all its minutes.
pub fn test_start(
    steps: &[Step],
    limits: Limits,
    draw: Draw,
    first: usize,
    start: u32,
) -> TestedStart
    requires { CanTest steps.now draw start first }
    ensures fits { IfOk result.verdict (λ _. EachFits steps.now limits draw start) }
    ensures fails { IfErr result.verdict (λ failing. FailsFirst steps.now limits draw start failing) }
    ensures looked { MatchResult result.verdict (λ _. result.looked ≡ draw.time)
        (λ failing. result.looked ≡ failing.minute - start + 1) }
    ensures within { 1 ≤ draw.time → (1 ≤ result.looked) × (result.looked ≤ draw.time) }
    ensures rule { TestShows steps.now limits draw start result }
{
    let until = start + draw.time;
    let failing = first_failing_by(steps, first, start..until, |_, step, t| {
        (!limits.allow_with(step, draw)).then_some(t)
    });
    let Some(failing) = failing else {
        return TestedStart {
            verdict: Ok(()),
            looked: draw.time,
        };
    };
    let looked = failing.minute - start + 1;
    TestedStart {
        verdict: Err(failing),
        looked,
    }
}

/// The first start, not below the one given, that fits by the minutes below `until`: the answer fits, or it reaches `until` or behind.
pub fn first_fitting(steps: &[Step], limits: Limits, draw: Draw, start: u32, until: u32) -> u32
    requires { CanFit steps.now limits draw start }
    ensures first { FirstFitting steps.now limits draw start until result }
    ensures high { result ≤ max start (last_minute steps.now) }
{
    first_passing(steps, draw.time, start, until, |s, i| {
        test_start(steps, limits, draw, i, s).verdict.err()
    })
}
