// The ends of charges, and how late the held ones are.
ghost use Rattle.std.specs.Prelude.{◌≡◌, ◌+◌, ◌-◌, ◌<◌};
ghost use Rattle.rules.specs.Charge.{lateness as lateness_of};
ghost use Rattle.charges.specs.Arrays.{charges_of};

use crate::Charges;

// Starts may be any 32-bit numbers, so ends have 64 bits.
pub fn end_of(start: u32, time: u32) -> u64
    ensures { (result ≡ start + time) × (result < 8589934592) }
{
    u64::from(start) + u64::from(time)
}

fn late_of(start: u32, time: u32, due: u32) -> u64
    ensures { (result ≡ start + time - due) × (result < 8589934592) }
{
    end_of(start, time).saturating_sub(u64::from(due))
}

impl Charges {
    pub fn lateness(&self) -> u64
        ensures { result ≡ lateness_of (charges_of self.now) }
    {
        (0..self.held)
            .map(|i| late_of(self.starts[i], self.times[i], self.dues[i]))
            .sum()
    }
}
