// The test that an offer and both replans end with.
ghost use Rattle.std.specs.Prelude.{◌≡◌, ◌+◌, length};
ghost use Rattle.rules.specs.Replan.{starts as starts_of};
ghost use Rattle.charges.specs.Arrays.{Columns};
ghost use Rattle.charges.specs.Held.{Listed};
ghost use Rattle.planner.specs.Starts.{waiting_count};
ghost use Rattle.planning.specs.Answers.{Enough, first_starts, Tests};

use crate::Planned;
use charges::Charges;
use charges::starts::Starts;
use planner::Beside;
use planner::cause::Cause;
use plans::judged;

// With no cause the waiting charges of a feeder get these starts. Otherwise its charges are unchanged.
pub fn tested(charges: &mut Charges, beside: Beside<'_>, starts: &[u32], rounds: u32) -> Planned
    requires { Columns charges.old × Listed charges.old × (length starts.now ≡ waiting_count beside.clock charges.old) }
    ensures { Tests beside.entry charges.old rounds (starts_of starts.now) result charges.new }
{
    let judgement = judged(beside, charges, starts);
    let taken = match judgement.taken {
        Ok(next) => {
            *charges = next;
            Ok(())
        }
        Err(cause) => Err(cause),
    };
    Planned {
        taken,
        before: judgement.before,
        after: judgement.after,
        rounds,
    }
}

// What a replan proposes meets the test, or its cause keeps the held plan. Starts behind those for the waiting charges are not read.
pub fn replanned(
    charges: &mut Charges,
    beside: Beside<'_>,
    proposed: Result<Starts, Cause>,
    rounds: u32,
) -> Planned
    requires { Columns charges.old × Listed charges.old × Enough (waiting_count beside.clock charges.old) proposed }
    ensures { Tests beside.entry charges.old rounds (first_starts (waiting_count beside.entry.clock charges.old) proposed) result charges.new }
{
    match proposed {
        Ok(starts) => {
            let count = charges.waiting_count(beside.clock);
            tested(charges, beside, &starts.as_slice()[..count], rounds)
        }
        Err(cause) => {
            let before = charges.lateness();
            Planned {
                taken: Err(cause),
                before,
                after: before,
                rounds,
            }
        }
    }
}
