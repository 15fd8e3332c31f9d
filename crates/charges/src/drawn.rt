// What the charges of several feeders draw, one feeder after another.
ghost use Rattle.std.specs.Prelude.{◌≡◌, cond, List, [], ◌++◌, ◌+◌, ◌≤◌, length};
ghost use Rattle.rules.specs.Charge.{loads_of};
ghost use Rattle.charges.specs.Arrays.{charges_of};
ghost use Rattle.charges.specs.Drawn.{site_places, loads_lent, seen_from};

use crate::loads::Loads;
use crate::{Charges, PLACES};
use rules::OTHERS;
use std::marker::Model;

// "1 to 4 feeders, each with its own .. 180 places"
pub const SITE_PLACES: usize = 4 * PLACES;

// Columns as those of the charges, for all feeders of a site.
#[derive(Clone, Copy)]
pub struct Drawn {
    held: usize,
    lines: [u32; SITE_PLACES],
    active_times: [u32; SITE_PLACES],
    starts: [u32; SITE_PLACES],
    rates: [u32; SITE_PLACES],
}

// Seen as the loads drawn, which determine the columns: the places behind them are 0.
impl Model for Drawn {
    ghost use Rattle.std.specs.Prelude.{List, ◌-◌, ◌≤◌, length, map};
    ghost use Rattle.std.proofs.Common.{ap, ◌∙◌, arith};
    ghost use Rattle.rules.specs.Load.{Load};
    ghost use Rattle.rules.proofs.Lists.{length_tabulate};
    ghost use Rattle.charges.specs.Drawn.{site_places, load_in, loads_in};
    ghost use Rattle.charges.specs.Zeros.{Cleared, before_zeros, made_again, lines_again, active_times_again, starts_again, rates_again};

    ghost Value = { List Load };

    ghost view = { λ d. loads_in d.held d.lines d.active_times d.starts d.rates };

    ghost invariant = { λ d. (d.held ≤ site_places)
        × Cleared site_places d.held d.lines × Cleared site_places d.held d.active_times
        × Cleared site_places d.held d.starts × Cleared site_places d.held d.rates };

    ghost inverse = { λ xs. record {
      held = length xs;
      lines = before_zeros site_places (map (λ x. x.line) xs);
      active_times = before_zeros site_places (map (λ x. x.until - x.from) xs);
      starts = before_zeros site_places (map (λ x. x.from) xs);
      rates = before_zeros site_places (map (λ x. x.rate) xs);
    } };

    ghost inverse_ok = { λ d h i. record {
      held = length_tabulate (load_in d.lines d.active_times d.starts d.rates) d.held 0 i;
      lines = (ap (before_zeros site_places) (lines_again d.held d.lines d.active_times d.starts d.rates (omega (arith, h.0, h.1.full))) ∙ made_again site_places d.held d.lines h.0 h.1) i;
      active_times = (ap (before_zeros site_places) (active_times_again d.held d.lines d.active_times d.starts d.rates (omega (arith, h.0, h.2.full))) ∙ made_again site_places d.held d.active_times h.0 h.2) i;
      starts = (ap (before_zeros site_places) (starts_again d.held d.lines d.active_times d.starts d.rates (omega (arith, h.0, h.3.full))) ∙ made_again site_places d.held d.starts h.0 h.3) i;
      rates = (ap (before_zeros site_places) (rates_again d.held d.lines d.active_times d.starts d.rates (omega (arith, h.0, h.4.full))) ∙ made_again site_places d.held d.rates h.0 h.4) i;
    } };
}

impl Drawn {
    pub fn none() -> Drawn
        ensures { result ≡ [] }
    {
        let zeros = [0; SITE_PLACES];
        Drawn {
            held: 0,
            lines: zeros,
            active_times: zeros,
            starts: zeros,
            rates: zeros,
        }
    }

    // What one more feeder's charges draw, on their own lines or as another feeder's, behind what was there.
    pub fn append(&mut self, charges: &Charges, own: bool)
        requires { length self.old + charges.now.held ≤ site_places }
        ensures { self.new ≡ self.old ++ seen_from own (loads_of (charges_of charges.now)) }
    {
        let held = charges.held;
        let from = self.held;
        let end = from + held;
        let lines = &mut self.lines[from..end];
        if own {
            lines.copy_from_slice(&charges.lines[..held]);
        } else {
            lines.fill(OTHERS);
        }
        self.active_times[from..end].copy_from_slice(&charges.active_times[..held]);
        self.starts[from..end].copy_from_slice(&charges.starts[..held]);
        self.rates[from..end].copy_from_slice(&charges.rates[..held]);
        self.held = end;
    }

    // What is drawn, lent.
    pub fn loads(&self) -> Loads<'_>
        ensures { loads_lent result ≡ self.now }
    {
        Loads {
            lines: &self.lines[..self.held],
            active_times: &self.active_times[..self.held],
            starts: &self.starts[..self.held],
            rates: &self.rates[..self.held],
        }
    }
}
