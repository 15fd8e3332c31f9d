// The waiting charges: how many, and with new starts; and whether one of some starts is below the clock.
ghost use Rattle.std.specs.Prelude.{◌≡◌, ◌≤◌, ltb, length};
ghost use Rattle.rules.specs.Basics.{some};
ghost use Rattle.rules.specs.Charge.{waiting_charges};
ghost use Rattle.rules.specs.Judgement.{restarted as restarted_of};
ghost use Rattle.charges.specs.Arrays.{charges_of, Columns, Holds};

use crate::Charges;

// Whether one of the starts is below the clock.
pub fn start_below(starts: &[u32], clock: u32) -> bool
    ensures { result ≡ some (λ s. ltb s clock) starts.now }
{
    starts.iter().any(|start| *start < clock)
}

impl Charges {
    // How many charges wait.
    pub fn waiting_count(&self, clock: u32) -> usize
        ensures { (result ≡ length (waiting_charges clock (charges_of self.now))) × (result ≤ self.now.held) }
    {
        self.starts[..self.held]
            .iter()
            .filter(|start| clock <= **start)
            .count()
    }

    // The waiting charges get these starts, in ticket order.
    pub fn restarted(&self, clock: u32, starts: &[u32]) -> Charges
        requires { Columns self.now × (length starts.now ≡ length (waiting_charges clock (charges_of self.now))) }
        ensures { Holds (restarted_of clock (charges_of self.now) starts.now) result }
    {
        let waiting = self.waiting_places(clock);
        let mut restarted = *self;
        let next = &mut restarted.starts[..];
        for (place, start) in waiting.as_slice().iter().zip(starts) {
            next[*place] = *start;
        }
        restarted
    }
}
