// The profile with which a plan is made or tested: what the other feeders draw, and the begun ones of the charges held while it is made,
// all of the proposed ones while it is tested. It is filled in its place, since a profile that is handed back is copied.
ghost use Rattle.std.specs.Prelude.{[]};
ghost use Rattle.rules.specs.Charge.{begun_charges, seen};
ghost use Rattle.charges.specs.Arrays.{charges_of};
ghost use Rattle.charges.specs.Drawn.{loads_lent};
ghost use Rattle.profile.specs.Shows.{Shows};
ghost use Rattle.planner.specs.Ready.{terms_of, Spacious, Profiled};

use crate::Beside;
use charges::Charges;
use profile::loads::Profile;
use windows::add_started;

// What the other feeders draw.
fn add_others<const N: usize>(profile: &mut Profile<N>, beside: Beside<'_>)
    requires { Spacious beside N × Shows profile.old beside.clock [] }
    ensures { Shows profile.new beside.entry.clock (loads_lent beside.entry.others) }
{
    // No start is as late as that: all of them are in the profile.
    add_started(profile, beside.others, 0..u32::MAX);
}

// What the other feeders draw, and the charges with a start below `before`: the begun ones, where that is the clock.
pub fn add_standing<const N: usize>(
    profile: &mut Profile<N>,
    beside: Beside<'_>,
    charges: &Charges,
    before: u32,
)
    requires { Spacious beside N × Shows profile.old beside.clock [] × Profiled charges.now }
    ensures { Shows profile.new beside.entry.clock (seen (terms_of beside.entry) (begun_charges before (charges_of charges.now))) }
{
    add_others(profile, beside);
    add_started(profile, charges.loads(), 0..before);
}
