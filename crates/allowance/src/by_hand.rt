// Stations whose answers were worked out by hand, and wrong rules that are excluded.
ghost use Rattle.allowance.specs.Cases.{AllowancesWorkedOut, SitesWorkedOut};
ghost use Rattle.allowance.specs.Excluded.{
  TailHasToBeUnderTheCap,
  ChargesHaveToBePlacedAnew,
  CapsHaveToFall,
  AllowanceLimitsNoCharges,
  AllowanceTellsNoRounds,
};

/// What several allowances give on three stations, and on a site of two feeders.
#[tactic(auto, using(crate::proofs::Cases::allowances_hold, crate::proofs::Cases::sites_hold))]
pub fn allowances_by_hand()
    ensures allowances { AllowancesWorkedOut }
    ensures sites { SitesWorkedOut }
{}

/// Of five wrong rules for replan by lines the same cannot be said.
pub fn wrong_rules_excluded()
    ensures tail_left_out { TailHasToBeUnderTheCap }
    ensures not_placed_anew { ChargesHaveToBePlacedAnew }
    ensures lowered_to_the_count { CapsHaveToFall }
    ensures charges_limited { AllowanceLimitsNoCharges }
    ensures rounds_told { AllowanceTellsNoRounds }
{}
