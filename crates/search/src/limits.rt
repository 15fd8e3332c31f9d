// What a plan of a feeder has to keep to, and whether the counts of a step do.
ghost use Rattle.std.specs.Prelude.{◌≡◌, ◌≤◌, []};
ghost use Rattle.rules.specs.Load.{IsRate, share, sound_counts};
ghost use Rattle.profile.specs.Steps.{counts_of};
ghost use Rattle.search.specs.Numbers.{limits_beside, with_draw, rate_within};
ghost use Rattle.search.specs.Rooms.{SmallStep};

pub use profile::loads::Draw;
use profile::steps::Step;
use rules::OTHERS;

// The limit N, the bound D, and the site's limit W.
#[derive(Clone, Copy)]
pub struct Limits {
    pub limit: u32,
    pub bound: u32,
    pub site: u32,
}

// What a load adds to the count of a line.
fn share(draw: Draw, line: u32) -> u32
    ensures { (result ≡ share draw.line draw.rate line) × (result ≤ draw.rate) }
{
    if draw.line == line { draw.rate } else { 0 }
}

impl Limits {
    // Whether the counts of a step are within both limits and the bound.
    pub fn allow(self, step: Step) -> bool
        ensures { result ≡ sound_counts (limits_beside self []) (counts_of step) }
    {
        step.is_within(self.limit, self.site) && step.is_balanced(self.bound)
    }

    // The same with one more load, on a line or, as line 4, of another feeder; on any other line it is not counted. What it adds is
    // worked out for each line, since a search asks for many steps, and a choice of the line at each of them costs more.
    pub fn allow_with(self, step: Step, draw: Draw) -> bool
        requires { SmallStep step × IsRate draw.rate }
        ensures { result ≡ sound_counts (limits_beside self []) (with_draw (counts_of step) draw) }
    {
        self.allow(Step {
            one: step.one + share(draw, 1),
            two: step.two + share(draw, 2),
            three: step.three + share(draw, 3),
            others: step.others + share(draw, OTHERS),
            ..step
        })
    }

    // Whether a rate is within both limits and the bound.
    pub fn allow_rate(self, rate: u32) -> bool
        ensures { result ≡ rate_within self rate }
    {
        rate <= self.limit && rate <= self.bound && rate <= self.site
    }
}
