// What is refused, of every call that is made to a valid station.
ghost use Rattle.theorem.specs.Refused.{RefusedByTheTable, RefusedForTheFirst, OthersAreAnswered, RefusalLeavesTheStation, RefusalLeavesTheList};

/// A call is refused exactly for the first condition that applies to it, in the order of its table,
/// and with that condition's number; the very station and every list are then as they were. Every
/// other call gets its answer.
#[tactic(auto, using(crate::proofs::Refused::refused_by_the_table, crate::proofs::Refused::refused_for_the_first, crate::proofs::Refused::others_are_answered, crate::proofs::Refused::refusal_leaves_the_station, crate::proofs::Refused::refusal_leaves_the_list))]
pub fn calls_refused()
    ensures table { RefusedByTheTable }
    ensures first { RefusedForTheFirst }
    ensures others { OthersAreAnswered }
    ensures station { RefusalLeavesTheStation }
    ensures list { RefusalLeavesTheList }
{}
