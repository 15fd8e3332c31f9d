// Whether the plan of a feeder is sound from the clock on, and the site within its limit, by its profile.
ghost use Rattle.std.specs.Prelude.{◌≡◌};
ghost use Rattle.rules.specs.Load.{sound};
ghost use Rattle.rules.specs.Charge.{seen};
ghost use Rattle.charges.specs.Arrays.{charges_of};
ghost use Rattle.planner.specs.Causes.{cause_in};
ghost use Rattle.planner.specs.Ready.{terms_of, Spacious, Profiled};
ghost use Rattle.planner.specs.Judged.{broken};

use crate::Beside;
use crate::cause::Cause;
use crate::standing::add_standing;
use charges::Charges;
use profile::balance::{first_unbalanced, within_limits};
use profile::loads::Profile;

// Causes 5 and 6 of a plan, the first that applies.
pub fn soundness<const N: usize>(beside: Beside<'_>, charges: &Charges) -> Result<(), Cause>
    requires { Spacious beside N × Profiled charges.now }
    ensures { cause_in result ≡ broken (terms_of beside.entry) beside.entry.clock (seen (terms_of beside.entry) (charges_of charges.now)) }
{
    let mut profile = Profile::<N>::new(beside.clock);
    // No start is as late as that: all charges are in the profile.
    add_standing(&mut profile, beside, charges, u32::MAX);
    let limits = beside.limits;
    if !within_limits(profile.steps(), limits.limit, limits.site) {
        return Err(Cause::AboveLimit);
    }
    if first_unbalanced(profile.steps(), limits.bound).is_some() {
        return Err(Cause::AboveBound);
    }
    Ok(())
}

pub fn plan_sound<const N: usize>(beside: Beside<'_>, charges: &Charges) -> bool
    requires { Spacious beside N × Profiled charges.now }
    ensures { result ≡ sound (terms_of beside.entry) beside.entry.clock (seen (terms_of beside.entry) (charges_of charges.now)) }
{
    soundness::<N>(beside, charges).is_ok()
}
