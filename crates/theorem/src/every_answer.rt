// Of the answers, the lists and the stations, after any calls.

ghost use Rattle.theorem.specs.AfterCalls.{ForAnyCalls};
ghost use Rattle.theorem.specs.EveryAnswer.{AnswersByTheRules, NextByTheRules, StationsValid, OtherListsStay, RefusedLeavesTheStation};

/// Every answer and every list is that of the rules, and so is what any further call gives. Every
/// station is valid, a list that a call does not write stays, and a refusal leaves the very station.
pub fn every_answer()
    ensures answers { ForAnyCalls AnswersByTheRules }
    ensures next { ForAnyCalls NextByTheRules }
    ensures valid { ForAnyCalls StationsValid }
    ensures lists { ForAnyCalls OtherListsStay }
    ensures refused { ForAnyCalls RefusedLeavesTheStation }
{}
