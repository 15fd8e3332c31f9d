// What the board over the exit shows.
ghost use Rattle.rules.specs.laws.Boards.{TicketsAreShown, LaterPlacesAreKept, NotHeldIsShownExactly, LookedIsAtMostTheHeld};

/// A board shows the start of each ticket that is asked for, 4,294,967,295 exactly where it is not held, and keeps later places. It never
/// looks at more charges than are held.
#[tactic(auto, using(crate::proofs::OnTheBoard::place_shown, crate::proofs::OnTheBoard::place_kept, crate::proofs::OnTheBoard::shown_exactly, crate::proofs::OnTheBoard::looked_most))]
pub fn board_answers()
    ensures shown { TicketsAreShown }
    ensures kept { LaterPlacesAreKept }
    ensures not_held { NotHeldIsShownExactly }
    ensures looked { LookedIsAtMostTheHeld }
{}
