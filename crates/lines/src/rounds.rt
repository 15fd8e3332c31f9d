// Replan by lines: rounds under ever lower caps.
ghost use Rattle.std.specs.Prelude.{◌≡◌};
ghost use Rattle.rules.specs.Replan.{by_lines};
ghost use Rattle.charges.specs.Arrays.{charges_of};
ghost use Rattle.planner.specs.Ready.{terms_of, Spacious, Ready};
ghost use Rattle.lines.specs.Lines.{CanPlace, ShowsStanding};
ghost use Rattle.lines.specs.Rounds.{Comparable, Plays, Replans, asked_in};

use crate::place::{Task, place_lines};
use charges::Charges;
use charges::starts::Starts;
use planner::Beside;
use planner::cause::Cause;
use planner::standing::add_standing;
use planner::starts::waiting_starts;
use profile::balance::{first_unbalanced, largest_line, level};
use profile::loads::Profile;
use profile::steps::{Step, place};
use queues::by_latest_start;
use search::caps::{LineCaps, Lowering};
use std::ops::ControlFlow;

// A round ends the replan with what is proposed, or goes on with a line's cap that has to be lowered.
type Round = ControlFlow<Result<Starts, Cause>, Lowering>;

// What replan by lines proposes, with the rounds made for it.
#[derive(Clone, Copy)]
pub struct Replanned {
    pub proposed: Result<Starts, Cause>,
    pub rounds: u32,
}

// What the first unbalanced minute of a plan asks for: a lower cap for the line with the largest count, if a placed charge draws there,
// and so the count is not that of what stands.
fn unbalanced_in(minute: u32, plan: &[Step], standing: &[Step], bound: u32) -> Option<Lowering>
    requires { Comparable plan.now standing.now minute bound }
    ensures { result ≡ asked_in plan.now standing.now minute bound }
{
    let step = plan[place(plan, minute)];
    let line = largest_line(step);
    let drawn = level(standing, line, minute);
    if step.largest() == drawn {
        return None;
    }
    let cap = step.smallest() + bound;
    Some(Lowering { line, minute, cap })
}

// One round: every waiting charge placed under the caps beside what stands, and what the first unbalanced minute asks for. The plan's
// profile is lent, since a new one would be cleared in each round.
fn play<const N: usize>(plan: &mut Profile<N>, standing: &Profile<N>, task: &Task<'_>) -> Round
    requires { CanPlace N task.now × ShowsStanding task.now standing.now }
    ensures { Plays task.now result }
{
    plan.copy(standing);
    let by_place = place_lines(plan, task);
    let bound = task.beside.limits.bound;
    let Some(minute) = first_unbalanced(plan.steps(), bound) else {
        let starts = waiting_starts(task.charges, task.beside.clock, &by_place);
        return ControlFlow::Break(Ok(starts));
    };
    match unbalanced_in(minute, plan.steps(), standing.steps(), bound) {
        Some(lowering) => ControlFlow::Continue(lowering),
        // No placed charge is to blame.
        None => ControlFlow::Break(Err(Cause::NoStart)),
    }
}

// Replan by lines. At least one round is made, whatever the allowance. Every round begins from the profile of what stands.
pub fn by_lines<const N: usize>(beside: Beside<'_>, charges: &Charges, allowance: u32) -> Replanned
    requires { Spacious beside N × Ready beside charges.now }
    ensures { Replans beside.entry.clock charges.now (by_lines (terms_of beside.entry) beside.entry.clock allowance (charges_of charges.now)) result }
{
    let queue = by_latest_start(charges, beside.clock);
    let mut plan = Profile::<N>::new(beside.clock);
    let mut standing = Profile::<N>::new(beside.clock);
    add_standing(&mut standing, beside, charges, beside.clock);
    let mut caps = LineCaps::new(beside.limits);
    let most = allowance.max(1);
    for rounds in 1..=most {
        let task = Task {
            beside,
            charges,
            queue: &queue,
            caps: &caps,
        };
        match play(&mut plan, &standing, &task) {
            ControlFlow::Break(proposed) => return Replanned { proposed, rounds },
            ControlFlow::Continue(lowering) => caps.lower(lowering),
        }
    }
    Replanned {
        proposed: Err(Cause::AllowanceSpent),
        rounds: most,
    }
}
