// Offers and both replans of a feeder: a list of starts, and the test that all three end with.
#![tactic(auto)]

pub mod offer;
pub mod replan;
pub mod tested;

ghost use Rattle.std.specs.Prelude.{◌≡◌};
ghost use Rattle.planner.specs.Causes.{cause_in};

use planner::cause::Cause;

// Whether the new plan is taken, or the cause for keeping the held one; the lateness before and after, and the rounds made.
#[derive(Clone, Copy)]
pub struct Planned {
    pub taken: Result<(), Cause>,
    pub before: u64,
    pub after: u64,
    pub rounds: u32,
}

impl Planned {
    // The number of the cause: "Cause 0 means taken".
    pub fn cause_number(&self) -> u32
        ensures { result ≡ cause_in self.now.taken }
    {
        self.taken.err().map_or(0, u32::from)
    }
}
