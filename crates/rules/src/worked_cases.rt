// That the worked cases hold.
ghost use Rattle.rules.specs.Cases.{CasesHold, StationCasesHold, CandidatesHold, OrderCandidatesHold};

/// The rules give what the arrays of worked cases have: answers, lists, counted minutes and queues, and for a candidate start the verdict and
/// the number of minutes looked at.
#[tactic(auto, using(crate::proofs::Cases::cases_hold, crate::proofs::Cases::stations_hold, crate::proofs::Cases::candidates_hold, crate::proofs::Cases::orders_hold))]
pub fn cases_hold()
    ensures cases { CasesHold }
    ensures stations { StationCasesHold }
    ensures candidates { CandidatesHold }
    ensures orders { OrderCandidatesHold }
{}
