// A larger allowance for replan by lines: statements in specs/, proofs in proofs/. Each clause of a function here is a law; nothing runs.
#![tactic(auto)]

ghost use Rattle.allowance.specs.Allowance.{Everywhere, WhereverItStands, LargestYard};
ghost use Rattle.allowance.specs.Larger.{
  LargerGivesTheSame,
  LoweringsAreStrict,
  NoCapRises,
  RoundsAreFew,
  LargestIsNeverSpent,
};

pub mod by_hand;

/// Where a replan by lines ends for another reason than that its allowance is spent, every larger allowance gives the same; each lowering
/// of a cap is strict, and the rounds are bounded.
pub fn larger_allowance()
    ensures everywhere { Everywhere }
    ensures wherever_it_stands { WhereverItStands }
    ensures largest_yard { LargestYard }
    ensures same { LargerGivesTheSame }
    ensures lower { LoweringsAreStrict }
    ensures nowhere_higher { NoCapRises }
    ensures few_rounds { RoundsAreFew }
    ensures never_spent { LargestIsNeverSpent }
{}
