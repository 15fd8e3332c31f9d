// What every opening gives.

ghost use Rattle.theorem.specs.EveryOpening.{OpeningRefusedByTheTable, OpeningRefusedForTheFirst, LeastBesideARefusal, OpenedAsAsked};

/// An opening is refused for the first condition of its table that applies, and beside it stands the
/// least station; one that is not refused gives the station that was asked for.
pub fn every_opening()
    ensures table { OpeningRefusedByTheTable }
    ensures first { OpeningRefusedForTheFirst }
    ensures beside { LeastBesideARefusal }
    ensures opened { OpenedAsAsked }
{}
