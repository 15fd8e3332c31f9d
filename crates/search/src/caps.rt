// The caps of a feeder's lines, beside the site's limit: place k of a line has the first minute from which on its cap is below k.
ghost use Rattle.std.specs.Prelude.{◌≡◌, ◌<◌, ◌≤◌};
ghost use Rattle.search.specs.Caps.{cap_places, caps_of, under_in, CapsShown, Unlowered, Lowered, CapLowered};

use crate::limits::Limits;
use profile::loads::Draw;
use profile::steps::Step;

// So many places a line has, one for each count from 0 to the largest limit, 60.
pub const CAP_PLACES: usize = 61;

// Where the cap is never below k the place has the largest minute, so that the search compares minutes alone.
const NEVER: u32 = u32::MAX;

// The cap of each line, and the site's limit W over all of them.
#[derive(Clone, Copy)]
pub struct LineCaps {
    pub one: [u32; CAP_PLACES],
    pub two: [u32; CAP_PLACES],
    pub three: [u32; CAP_PLACES],
    pub site: u32,
}

// From the minute on the cap of the line is no longer above this one.
#[derive(Clone, Copy)]
pub struct Lowering {
    pub line: u32,
    pub minute: u32,
    pub cap: u32,
}

// Counts below n are at or below the cap of the line in every minute.
pub fn unlowered(n: usize) -> [u32; CAP_PLACES]
    requires { n ≤ cap_places }
    ensures { Unlowered n result }
{
    let mut caps = [0; CAP_PLACES];
    caps[..n].fill(NEVER);
    caps
}

// From t on counts of n and more are above the cap of the line.
fn lower_from(caps: &mut [u32; CAP_PLACES], n: usize, t: u32)
    ensures { Lowered caps.old caps.new t n }
{
    for cap in &mut caps[n.min(CAP_PLACES)..] {
        *cap = (*cap).min(t);
    }
}

impl LineCaps {
    // Each line's cap is the limit in every minute.
    pub fn new(limits: Limits) -> LineCaps
        requires { limits.limit < cap_places }
        ensures { CapsShown result limits.site (λ l t. limits.limit) }
    {
        let n = limits.limit as usize;
        let caps = unlowered(n + 1);
        LineCaps {
            one: caps,
            two: caps,
            three: caps,
            site: limits.site,
        }
    }

    // From the minute on the line's cap becomes the smaller of itself and the one given; what is no line lowers none.
    pub fn lower(&mut self, lowering: Lowering)
        requires { lowering.minute < 4294967295 }
        ensures { CapLowered self.old self.new lowering.line lowering.minute lowering.cap }
    {
        let t = lowering.minute;
        let above = lowering.cap as usize + 1;
        match lowering.line {
            1 => lower_from(&mut self.one, above, t),
            2 => lower_from(&mut self.two, above, t),
            3 => lower_from(&mut self.three, above, t),
            _ => {}
        }
    }

    // Up to which minute a count is at or below the cap of its line; what is no line goes by the cap of line 3.
    pub fn under(&self, line: u32, count: usize) -> u32
        ensures { result ≡ caps_of self.now line count }
    {
        let caps = match line {
            1 => &self.one,
            2 => &self.two,
            _ => &self.three,
        };
        caps.get(count).copied().unwrap_or(0)
    }

    // Up to which minute a step has room for one more load under its line's cap: not at all, where the site would pass its limit.
    pub fn under_in(&self, step: Step, draw: Draw) -> u32
        ensures { result ≡ under_in self.now draw.line draw.rate step }
    {
        let all = step.whole() + u64::from(draw.rate);
        if u64::from(self.site) < all {
            return 0;
        }
        let count = step.count(draw.line) as usize + draw.rate as usize;
        self.under(draw.line, count)
    }
}
