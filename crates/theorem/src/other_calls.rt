// What a withdrawal, an enquiry and a board give, of every call that is made to a valid station.
ghost use Rattle.theorem.specs.Withdrawn.{WaitingIsWithdrawn, OthersStayHeld, PlaceIsFree, RefusedStaysHeld};
ghost use Rattle.theorem.specs.Looked.{EnquiryTellsTheCharge, EnquiryChangesNothing, BoardCounts, BoardOfNoneLooksAtNone, BoardWritesStarts, BoardKeepsLaterPlaces, BoardChangesNothing};

/// An order is withdrawn exactly when its charge waits and the rest of the feeder's plan is sound.
/// Its place is free then, and all else is as it was; otherwise the very station stays.
#[tactic(auto, using(crate::proofs::Withdrawn::others_stay_held, crate::proofs::Withdrawn::place_is_free, crate::proofs::Withdrawn::refused_stays_held))]
pub fn withdrawals()
    ensures exactly { WaitingIsWithdrawn }
    ensures others { OthersStayHeld }
    ensures place { PlaceIsFree }
    ensures otherwise { RefusedStaysHeld }
{}

/// An enquiry tells by what is held whether a ticket waits, charges, or is not known, and changes
/// nothing.
#[tactic(auto, using(crate::proofs::Looked::enquiry_changes_nothing))]
pub fn enquiries()
    ensures told { EnquiryTellsTheCharge }
    ensures unchanged { EnquiryChangesNothing }
{}

/// A board writes the start of each ticket that is asked for, or 4,294,967,295 where it is not
/// held, keeps later places, answers how many charges it looked at, 0 where it is asked for none,
/// and changes nothing.
#[tactic(auto, using(crate::proofs::Looked::board_counts, crate::proofs::Looked::board_of_none_looks_at_none, crate::proofs::Looked::board_writes_starts, crate::proofs::Looked::board_keeps_later_places, crate::proofs::Looked::board_changes_nothing))]
pub fn boards_shown()
    ensures counted { BoardCounts }
    ensures none { BoardOfNoneLooksAtNone }
    ensures starts { BoardWritesStarts }
    ensures kept { BoardKeepsLaterPlaces }
    ensures unchanged { BoardChangesNothing }
{}
