// What charges draw, lent column by column: a copy of it would cost more than most plans.
ghost use Rattle.std.specs.Prelude.{◌≤◌, length};

use crate::Charges;
use crate::ends::end_of;

// As many loads as starts: the other columns reach as far.
#[derive(Clone, Copy)]
pub struct Loads<'a> {
    pub lines: &'a [u32],
    pub active_times: &'a [u32],
    pub starts: &'a [u32],
    pub rates: &'a [u32],
    pub ghost reaches: { (length starts.now ≤ length lines.now) × (length starts.now ≤ length active_times.now) × (length starts.now ≤ length rates.now) },
}

impl<'a> Loads<'a> {
    ghost use Rattle.std.specs.Prelude.{[], ◌≡◌, eqb, length};
    ghost use Rattle.rules.specs.Load.{last_until};
    ghost use Rattle.charges.specs.Drawn.{loads_lent};

    // Of a feeder that is alone: the others draw nothing.
    pub fn none() -> Loads<'a>
        ensures { loads_lent result ≡ [] }
    {
        Loads {
            lines: &[],
            active_times: &[],
            starts: &[],
            rates: &[],
        }
    }

    // "Cause 4 compares the largest s + p + r of the site": 0 where nothing is drawn.
    pub fn last_until(&self) -> u64
        ensures { result ≡ last_until (loads_lent self.now) }
    {
        let loads = self.starts.iter().zip(self.active_times);
        let ends = loads.map(|(start, time)| end_of(*start, *time));
        ends.max().unwrap_or(0)
    }

    // Whether nothing is drawn.
    pub fn is_empty(&self) -> bool
        ensures { result ≡ eqb (length (loads_lent self.now)) 0 }
    {
        self.starts.is_empty()
    }
}

impl Charges {
    ghost use Rattle.std.specs.Prelude.{◌≡◌};
    ghost use Rattle.rules.specs.Charge.{loads_of};
    ghost use Rattle.charges.specs.Arrays.{charges_of};
    ghost use Rattle.charges.specs.Drawn.{loads_lent};

    // What the charges draw, lent.
    pub fn loads(&self) -> Loads<'_>
        ensures { loads_lent result ≡ loads_of (charges_of self.now) }
    {
        Loads {
            lines: &self.lines[..self.held],
            active_times: &self.active_times[..self.held],
            starts: &self.starts[..self.held],
            rates: &self.rates[..self.held],
        }
    }
}
