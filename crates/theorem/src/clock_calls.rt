// What a clock move gives, of every call that is made to a valid station.
ghost use Rattle.theorem.specs.Moved.{MoveReportsInTurn, MoveKeepsLaterPlaces, MoveCounts, MoveSetsTheClock};

/// A clock move writes the charges that it passes to the front of the list, in the order of their
/// starts and then of their tickets, and keeps later places. It answers how many these are and how
/// many charges are over, which it drops, and sets the clock.
#[tactic(auto, using(crate::proofs::Moved::move_reports_in_turn, crate::proofs::Moved::move_keeps_later_places, crate::proofs::Moved::move_counts))]
pub fn moves()
    ensures reported { MoveReportsInTurn }
    ensures kept { MoveKeepsLaterPlaces }
    ensures counted { MoveCounts }
    ensures clock { MoveSetsTheClock }
{}
