// The causes for keeping the held plan.
ghost use Rattle.std.specs.Prelude.{◌≡◌};
ghost use Rattle.planner.specs.Causes.{number_of};

#[derive(Clone, Copy)]
pub enum Cause {
    // "no start found"
    NoStart = 1,
    // "the rounds made equal the allowance"
    AllowanceSpent = 2,
    // "a start is below the clock"
    StartBelowClock = 3,
    // "Cause 4 compares the largest s + p + r of the site"
    EndsLater = 4,
    // "a count above N in some minute from the clock on", and "cause 5 includes W"
    AboveLimit = 5,
    // "a difference above D in some minute from the clock on"
    AboveBound = 6,
    // "lateness is not smaller than now held"
    LatenessNotSmaller = 7,
}

impl From<Cause> for u32 {
    ghost from_gives = { λ cause n. n ≡ number_of cause };

    fn from(cause: Cause) -> u32 {
        cause as u32
    }
}
