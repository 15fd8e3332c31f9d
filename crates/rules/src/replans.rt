// How the two replans go about their work.
ghost use Rattle.rules.specs.laws.Orders.{LatestStartsAreInOrder, LatestStartsCompareAsSums};
ghost use Rattle.rules.specs.laws.Weights.{TestedTableKeepsTheRule, WeightsKeepTheRule, FadingKeepsItsBound};
ghost use Rattle.rules.specs.laws.Weights.{WeightIsFading, WeightEndsWithTheTable, TestedTableHasTheWeights};
ghost use Rattle.rules.specs.laws.Placing.{ChargesUnderCapsArePlaced, LinesHaveEveryCharge};
ghost use Rattle.rules.specs.laws.Rounds.{LoweredCapsAreAtLeast, StandingIsWithinTheSite, EveryRoundPlacesAll, NoOtherRoundIsPlayed};
ghost use Rattle.rules.specs.laws.Fitting.{FitsExactlyInTheRun, UnfitStaysUnfit, NoneBelowStaysNone};
ghost use Rattle.rules.specs.laws.Fitting.{StartsOfALineRise, NoneComesBeforeTheTaken};

/// The order by latest start is by due minute less charging time, a signed number, then by ticket, each charge once.
#[tactic(auto, using(crate::proofs::Queues::latest_start_order, crate::proofs::LatestStarts::latest_start_sums))]
pub fn latest_starts()
    ensures in_order { LatestStartsAreInOrder }
    ensures as_sums { LatestStartsCompareAsSums }
{}

/// The table of weights keeps its rule and its bound at each of its 512 places, and so does every table that passes the one test of the
/// whole; beyond the table the weight is 0.
#[tactic(auto, using(crate::proofs::Weights::keeps_rule, crate::proofs::Weights::weights_table, crate::proofs::Weights::fading_bounded, crate::proofs::Weights::weight_within, crate::proofs::Weights::weight_beyond, crate::proofs::Weights::table_weight))]
pub fn weights_table()
    ensures tested { TestedTableKeepsTheRule }
    ensures own { WeightsKeepTheRule }
    ensures bounded { FadingKeepsItsBound }
    ensures within { WeightIsFading }
    ensures beyond { WeightEndsWithTheTable }
    ensures same_weights { TestedTableHasTheWeights }
{}

/// In every round of a replan by lines each waiting charge gets a start, once: no cap is ever below the bound, and what stands meanwhile
/// leaves room under the site limit.
#[tactic(auto, using(crate::proofs::Rounds::lowered_at_least, crate::proofs::Picking::round_places, crate::proofs::Picking::lines_whole, crate::proofs::Standing::standing_within, crate::proofs::Standing::round_complete, crate::proofs::Standing::rounds_complete))]
pub fn rounds_of_lines()
    ensures caps { LoweredCapsAreAtLeast }
    ensures placed { ChargesUnderCapsArePlaced }
    ensures lines { LinesHaveEveryCharge }
    ensures standing { StandingIsWithinTheSite }
    ensures complete { EveryRoundPlacesAll }
    ensures no_other { NoOtherRoundIsPlayed }
{}

/// A charge fits at a start where the run of minutes with room is long enough. What did not fit before a placement does not fit after it,
/// so the starts of a line never fall, and no charge that fits comes before the one that is taken.
#[tactic(auto, using(crate::proofs::Fitting::fits_run_lem, crate::proofs::Fitting::unfit_stays, crate::proofs::Fitting::none_below_stays, crate::proofs::Fitting::starts_rise, crate::proofs::Foremost::foremost_first))]
pub fn fitting_charges()
    ensures run { FitsExactlyInTheRun }
    ensures unfit { UnfitStaysUnfit }
    ensures none_below { NoneBelowStaysNone }
    ensures rising { StartsOfALineRise }
    ensures foremost { NoneComesBeforeTheTaken }
{}
