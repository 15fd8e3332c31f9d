// The refusals of document 01, by what each says.
#![tactic(auto)]

ghost use Rattle.std.specs.Prelude.{◌≡◌};
ghost use Rattle.refusals.specs.Refusals.{number_of};

#[derive(Clone, Copy)]
pub enum Refusal {
    // N is outside 1 to 60.
    LimitOutOfRange = 1,
    // c is above 100.
    PercentAbove100 = 2,
    // The bound D is 0.
    BoundZero = 3,
    // There is no such line.
    NoSuchLine = 4,
    // The charging time is outside 1 to 1,440.
    TimeOutOfRange = 5,
    // The due minute is above 2,000,000.
    DueTooLate = 6,
    // The target is above 1,000,000.
    TargetTooLate = 8,
    // The list lent for the report is too short.
    ReportTooShort = 9,
    // An offer has not as many starts as charges wait.
    StartsNotAsMany = 10,
    // The allowance is outside 1 to 1,000.
    AllowanceOutOfRange = 11,
    // The target is below the clock.
    TargetBelowClock = 12,
    // The feeder holds 180 charges.
    FeederFull = 13,
    // The next ticket is above 65,535.
    TicketsSpent = 14,
    // No held charge has this ticket.
    NotHeld = 15,
    // The start that was shown is not the start now.
    StartChanged = 16,
    // The rate is neither 1 nor 2.
    RateOutOfRange = 17,
    // The rate is above N, D or W.
    RateTooLarge = 18,
    // r is above 5.
    TailAboveFive = 19,
    // A list lent for an image has not its size.
    ImageLength = 20,
    // A block of the image is damaged.
    ImageDamaged = 21,
    // The image is not of a valid station of one feeder.
    ImageInvalid = 22,
    // The tickets asked for do not rise, or are more than 180.
    TicketsNotRising = 23,
    // The list lent for the answers of a board is too short.
    AnswersTooShort = 24,
    // The charge has begun.
    AlreadyBegun = 25,
    // Without the charge the plan is not sound.
    RestUnsound = 26,
    // The count of feeders is outside 1 to 4.
    FeederCountOutOfRange = 27,
    // W is outside 1 to 720.
    SiteLimitOutOfRange = 28,
    // There is no such feeder.
    NoSuchFeeder = 29,
}

impl From<Refusal> for u32 {
    ghost from_gives = { λ refusal n. n ≡ number_of refusal };

    fn from(refusal: Refusal) -> u32 {
        refusal as u32
    }
}
