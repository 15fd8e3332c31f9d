// What holds of any one call more, after any calls.

ghost use Rattle.theorem.specs.AfterCalls.{ForAnyCalls};
ghost use Rattle.theorem.specs.EveryCall.{CallRefusedByTheTable, OthersAnswered, StartsAndPlans};

/// Whatever calls were made: a further one is refused with the first number of its table that applies
/// and then changes nothing, no other is refused, and starts and plans are those of the rules.
pub fn every_call()
    ensures table { ForAnyCalls CallRefusedByTheTable }
    ensures answered { ForAnyCalls OthersAnswered }
    ensures starts { ForAnyCalls StartsAndPlans }
{}
