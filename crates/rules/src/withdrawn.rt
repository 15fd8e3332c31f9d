// What a withdrawal leaves.
ghost use Rattle.rules.specs.laws.Withdrawals.{TicketsStandOnce, OnePlaceIsFree, WaitingHasNotBegun, NotBegunWaits};

/// A ticket stands once on a station, so that its withdrawal frees one place; and a ticket that is held waits exactly where it has not begun.
#[tactic(auto, using(crate::proofs::Distinct::site_distinct, crate::proofs::Withdrawing::place_free, crate::proofs::Withdrawing::waits_not_begun, crate::proofs::Withdrawing::held_waits))]
pub fn withdrawals()
    ensures once { TicketsStandOnce }
    ensures place_free { OnePlaceIsFree }
    ensures waiting { WaitingHasNotBegun }
    ensures not_begun { NotBegunWaits }
{}
