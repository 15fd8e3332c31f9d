// How the start of an order is found.
ghost use Rattle.rules.specs.laws.Searches.{SoundPlansLeaveAStart, NoStartFoundIsNoStart, NoMinuteFoundIsBalance, OrdersGetAStart};
ghost use Rattle.rules.specs.laws.Candidates.{FirstFailingMinuteIsTheLast, AllMinutesWhereNoneFails, LookedIsWithinTheActiveMinutes};
ghost use Rattle.rules.specs.laws.Candidates.{VerdictIsSoundness, EarliestIsTheFirstCandidate};
ghost use Rattle.rules.specs.laws.Candidates.{OrdersStartAtTheFirstCandidate, OrderTestsLookUpToTheTail};

/// The searches miss nothing: an order that is not refused gets a start, where none is found there is none, and where no unbalanced minute
/// is found all are in balance.
#[tactic(auto, using(crate::proofs::Searches::earliest_found, crate::proofs::Searches::earliest_none, crate::proofs::Searches::unbalanced_none, crate::proofs::Validity::order_starts))]
pub fn searches_complete()
    ensures found { SoundPlansLeaveAStart }
    ensures none { NoStartFoundIsNoStart }
    ensures balanced { NoMinuteFoundIsBalance }
    ensures order { OrdersGetAStart }
{}

/// The test of a candidate start looks at the minutes up to and including the first that fails, or at all active ones. Beside a sound plan
/// its verdict is that of the whole, and an order starts at the first candidate that fits.
#[tactic(auto, using(crate::proofs::TestedStarts::tested_fails, crate::proofs::TestedStarts::tested_passes, crate::proofs::TestedStarts::looked_bounds, crate::proofs::TestedStarts::candidate_sound, crate::proofs::TestedStarts::earliest_candidate, crate::proofs::TestedStarts::order_candidates, crate::proofs::TestedStarts::order_looked))]
pub fn candidate_starts()
    ensures failing { FirstFailingMinuteIsTheLast }
    ensures passing { AllMinutesWhereNoneFails }
    ensures looked { LookedIsWithinTheActiveMinutes }
    ensures verdict { VerdictIsSoundness }
    ensures earliest { EarliestIsTheFirstCandidate }
    ensures order { OrdersStartAtTheFirstCandidate }
    ensures order_looked { OrderTestsLookUpToTheTail }
{}
