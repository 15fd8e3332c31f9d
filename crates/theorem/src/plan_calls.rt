// What an offer and both replans give, of every call that is made to a valid station.
ghost use Rattle.theorem.specs.Planned.{BetterStartsAreTaken, BetterOfferIsTaken, TakenStartsAreInOrder, TakenStartsAreGiven, OtherwiseTheStationStays, PlanIsAnswered, PlanWritesNothing};
ghost use Rattle.theorem.specs.Causes.{CauseIsTheFirst, CauseOfNoStarts};
ghost use Rattle.theorem.specs.ByLines.{StartsOfAnEvenRound, CauseOneIsNoneActive, CauseTwoIsAllowanceSpent};
ghost use Rattle.theorem.specs.ByLatestStart.{TurnsAreByLatestStart, StartsAreTheSmallest, CauseOneIsNoStart};

/// The starts of an offer, and those that a replan finds by its rule, are taken exactly when they
/// begin nothing before the clock, the plan is sound with them, the site ends no later and the
/// feeder is less late. The waiting charges have them then, and nothing else has changed; otherwise
/// the very station stays.
#[tactic(auto, using(crate::proofs::Planned::taken_starts_are_in_order, crate::proofs::Planned::taken_starts_are_given, crate::proofs::Planned::otherwise_the_station_stays, crate::proofs::Planned::plan_is_answered, crate::proofs::Planned::plan_writes_nothing))]
pub fn plans_tested()
    ensures taken { BetterStartsAreTaken }
    ensures offered { BetterOfferIsTaken }
    ensures order { TakenStartsAreInOrder }
    ensures given { TakenStartsAreGiven }
    ensures otherwise { OtherwiseTheStationStays }
    ensures answer { PlanIsAnswered }
    ensures list { PlanWritesNothing }
{}

/// Starts that are not taken are answered with the first cause that speaks against them: 3, one is
/// before the clock; 4, the site ends later; 5, a count is above its limit or the site above its
/// own; 6, two counts are too far apart; 7, the feeder is not less late. A replan without starts
/// answers its own cause.
pub fn causes_told()
    ensures first { CauseIsTheFirst }
    ensures none { CauseOfNoStarts }
{}

/// The replan by latest start gives each waiting charge, by latest start and then by ticket, the
/// smallest start with which the begun charges and those placed before it are sound with it in
/// every minute from the clock on. It has cause 1 exactly when one has none.
pub fn latest_starts()
    ensures turns { TurnsAreByLatestStart }
    ensures starts { StartsAreTheSmallest }
    ensures cause { CauseOneIsNoStart }
{}

/// The replan by lines makes rounds, each with the caps that the rounds before it have lowered,
/// until one is even in every minute from the clock on; its starts are put to the test. It has
/// cause 1 after some rounds exactly when in the last of them no placed charge of the fullest line
/// is active in the first uneven minute, and cause 2 exactly when as many rounds as the allowance
/// have each found a cap to lower; so many rounds are answered.
pub fn rounds_made()
    ensures starts { StartsOfAnEvenRound }
    ensures one { CauseOneIsNoneActive }
    ensures two { CauseTwoIsAllowanceSpent }
{}
