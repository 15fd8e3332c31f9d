// Starts for waiting charges, in ticket order.
ghost use Rattle.std.specs.Prelude.{[], ◌∷◌, ◌≡◌, ◌+◌, ◌<◌, ◌≤◌, ◌++◌, length};
ghost use Rattle.rules.specs.Site.{places};

use crate::PLACES;
use std::marker::Model;

// With room for as many as a feeder has, since no memory is asked for after the start.
#[derive(Clone, Copy)]
pub struct Starts {
    count: usize,
    starts: [u32; PLACES],
}

// Seen as the list of the starts, which determines the array: the places behind it are 0.
impl Model for Starts {
    ghost use Rattle.std.specs.Prelude.{List, ℕ, ◌≤◌, length, take};
    ghost use Rattle.std.proofs.Common.{arith, length-take-le};
    ghost use Rattle.rules.specs.Site.{places as most};
    ghost use Rattle.charges.specs.Zeros.{Cleared, before_zeros, made_again};

    ghost Value = { List ℕ };

    ghost view = { λ s. take s.count s.starts };

    ghost invariant = { λ s. (s.count ≤ most) × Cleared most s.count s.starts };

    ghost inverse = { λ xs. record { count = length xs; starts = before_zeros most xs } };

    ghost inverse_ok = { λ s h i. record {
      count = length-take-le s.count s.starts (omega (arith, h.0, h.1.full)) i;
      starts = made_again most s.count s.starts h.0 h.1 i;
    } };
}

impl Starts {
    pub fn new() -> Starts
        ensures { result ≡ [] }
    {
        Starts {
            count: 0,
            starts: [0; PLACES],
        }
    }

    pub fn push(&mut self, start: u32)
        requires { length self.old < places }
        ensures starts { self.new ≡ self.old ++ (start ∷ []) }
        ensures len { length self.new ≡ length self.old + 1 }
    {
        let count = self.count;
        self.starts[count] = start;
        self.count = count + 1;
    }

    pub fn as_slice(&self) -> &[u32]
        ensures value { result.now ≡ self.now }
        ensures fits { length result.now ≤ places }
    {
        &self.starts[..self.count]
    }
}
