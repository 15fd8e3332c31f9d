// A clock that is moved.
ghost use Rattle.std.specs.Prelude.{◌≡◌};
ghost use Rattle.rules.specs.Calls.{moved_to};
ghost use Rattle.station.specs.View.{view, Formed};

use crate::Station;

impl Station {
    // "Then finished charges are dropped", on every feeder.
    pub fn move_to(&mut self, target: u32)
        requires { Formed self.old }
        ensures { Formed self.new × (view self.new ≡ moved_to (view self.old) target) }
    {
        for feeder in &mut self.feeders[..self.count] {
            feeder.charges = feeder.charges.unfinished(target);
        }
        self.clock = target;
    }
}
