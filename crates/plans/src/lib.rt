// Plans of a feeder, with a profile for the steps of one feeder where the others draw nothing, and for those of the site else: a profile
// is cleared when it is made, which costs more than a plan of few charges.
#![tactic(auto)]

ghost use Rattle.std.specs.Prelude.{◌≡◌, length};
ghost use Rattle.rules.specs.Load.{sound};
ghost use Rattle.rules.specs.Charge.{seen};
ghost use Rattle.rules.specs.Replan.{latest as latest_of, by_lines};
ghost use Rattle.charges.specs.Arrays.{charges_of, Columns};
ghost use Rattle.charges.specs.Held.{Listed};
ghost use Rattle.planner.specs.Ready.{terms_of, Profiled, Ready};
ghost use Rattle.planner.specs.Starts.{waiting_count};
ghost use Rattle.planner.specs.Answers.{Proposes};
ghost use Rattle.planner.specs.Judged.{Judges};
ghost use Rattle.lines.specs.Rounds.{Replans};

use charges::Charges;
use charges::starts::Starts;
use lines::rounds::Replanned;
use planner::Beside;
use planner::cause::Cause;
use planner::judge::Judgement;
use profile::{FEEDER_STEPS, STEPS};

// Replan by latest start.
pub fn latest(beside: Beside<'_>, charges: &Charges) -> Result<Starts, Cause>
    requires { Ready beside charges.now }
    ensures { Proposes beside.entry.clock charges.now (latest_of (terms_of beside.entry) beside.entry.clock (charges_of charges.now)) result }
{
    if beside.others.is_empty() {
        planner::latest::latest::<FEEDER_STEPS>(beside, charges)
    } else {
        planner::latest::latest::<STEPS>(beside, charges)
    }
}

// Replan by lines.
pub fn by_lines(beside: Beside<'_>, charges: &Charges, allowance: u32) -> Replanned
    requires { Ready beside charges.now }
    ensures { Replans beside.entry.clock charges.now (by_lines (terms_of beside.entry) beside.entry.clock allowance (charges_of charges.now)) result }
{
    if beside.others.is_empty() {
        lines::rounds::by_lines::<FEEDER_STEPS>(beside, charges, allowance)
    } else {
        lines::rounds::by_lines::<STEPS>(beside, charges, allowance)
    }
}

// The test that an offer and both replans end with.
pub fn judged(beside: Beside<'_>, charges: &Charges, starts: &[u32]) -> Judgement
    requires { Columns charges.now × Listed charges.now × (length starts.now ≡ waiting_count beside.clock charges.now) }
    ensures { Judges beside.entry charges.now starts.now result }
{
    if beside.others.is_empty() {
        planner::judge::judged::<FEEDER_STEPS>(beside, charges, starts)
    } else {
        planner::judge::judged::<STEPS>(beside, charges, starts)
    }
}

// Whether a plan is sound, and the site within its limit.
pub fn plan_sound(beside: Beside<'_>, charges: &Charges) -> bool
    requires { Profiled charges.now }
    ensures { result ≡ sound (terms_of beside.entry) beside.entry.clock (seen (terms_of beside.entry) (charges_of charges.now)) }
{
    if beside.others.is_empty() {
        planner::plan::plan_sound::<FEEDER_STEPS>(beside, charges)
    } else {
        planner::plan::plan_sound::<STEPS>(beside, charges)
    }
}
