// The test that an offer and both replans end with.
ghost use Rattle.std.specs.Prelude.{◌≡◌, ltb, length};
ghost use Rattle.rules.specs.Load.{last_until};
ghost use Rattle.rules.specs.Charge.{seen};
ghost use Rattle.rules.specs.Judgement.{restarted};
ghost use Rattle.charges.specs.Arrays.{Columns, Holds, charges_of};
ghost use Rattle.charges.specs.Held.{Listed};
ghost use Rattle.planner.specs.Causes.{cause_in};
ghost use Rattle.planner.specs.Ready.{terms_of, Spacious};
ghost use Rattle.planner.specs.Starts.{waiting_count};
ghost use Rattle.planner.specs.Judged.{CauseOf, Judges, or_late};

use crate::Beside;
use crate::cause::Cause;
use crate::plan::soundness;
use charges::Charges;
use charges::waiting::start_below;

// The charges that are held where the plan is taken, or the cause for keeping the held one; and the lateness before and after.
#[derive(Clone, Copy)]
pub struct Judgement {
    pub taken: Result<Charges, Cause>,
    pub before: u64,
    pub after: u64,
}

// "Cause 4 compares the largest s + p + r of the site": whether it is later with the next charges than now.
fn ends_later(beside: Beside<'_>, charges: &Charges, next: &Charges) -> bool
    ensures { result ≡ ltb (last_until (seen (terms_of beside.entry) (charges_of charges.now))) (last_until (seen (terms_of beside.entry) (charges_of next.now))) }
{
    let others = beside.others.last_until();
    let held = charges.loads().last_until();
    let then = next.loads().last_until();
    others.max(held) < others.max(then)
}

// Causes 3 to 6 for keeping the held charges against the next ones, which have the given starts.
fn but_for_lateness<const N: usize>(
    beside: Beside<'_>,
    charges: &Charges,
    next: &Charges,
    starts: &[u32],
) -> Result<(), Cause>
    requires { Spacious beside N × Listed charges.now × Holds (restarted beside.clock (charges_of charges.now) starts.now) next.now }
    ensures { CauseOf beside.entry charges.now starts.now (cause_in result) }
{
    if start_below(starts, beside.clock) {
        return Err(Cause::StartBelowClock);
    }
    if ends_later(beside, charges, next) {
        return Err(Cause::EndsLater);
    }
    soundness::<N>(beside, next)
}

// Cause 7 where the lateness is not smaller.
fn less_late(before: u64, after: u64) -> Result<(), Cause>
    ensures { cause_in result ≡ or_late 0 before after }
{
    if after < before {
        Ok(())
    } else {
        Err(Cause::LatenessNotSmaller)
    }
}

// The waiting charges get these starts, or all stays.
pub fn judged<const N: usize>(beside: Beside<'_>, charges: &Charges, starts: &[u32]) -> Judgement
    requires { Spacious beside N × Columns charges.now × Listed charges.now × (length starts.now ≡ waiting_count beside.clock charges.now) }
    ensures { Judges beside.entry charges.now starts.now result }
{
    let next = charges.restarted(beside.clock, starts);
    let before = charges.lateness();
    let after = next.lateness();
    let kept = but_for_lateness::<N>(beside, charges, &next, starts);
    match kept.and(less_late(before, after)) {
        Ok(()) => Judgement {
            taken: Ok(next),
            before,
            after,
        },
        Err(cause) => Judgement {
            taken: Err(cause),
            before,
            after: before,
        },
    }
}
