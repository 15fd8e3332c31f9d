// The rules as they were before they changed, in specs/; in proofs/ how the present ones agree with them. This crate has no code: each
// function below is a law, and its clauses say what was proved.
#![tactic(auto)]

ghost use Rattle.earlier.specs.LawsOfBefore.{TwoCallsGiveTheOrder, OthersGiveTheSame, DueHasNoPart, RateOneGivesTheSame, OpeningWithoutTailsIsSame, WithoutTailsGiveTheSame, FromOpeningWithoutTails, OpeningOfOneIsSame, OneFeederGivesTheSame, FromOpeningOfOne, CauseOfOneIsSame};

/// A preview and a commit together give what the order of one call gave, and an order in a hurry is taken like any other.
#[tactic(auto, using(crate::proofs::Earlier::same_as_before))]
pub fn orders_before()
    ensures two_calls { TwoCallsGiveTheOrder }
    ensures same { OthersGiveTheSame }
    ensures due { DueHasNoPart }
{}

/// Calls that state no rate but 1 give what they gave before there were rates.
#[tactic(auto, using(crate::proofs::RateOne::run_is))]
pub fn rates_of_one()
    ensures { RateOneGivesTheSame }
{}

/// Where no contactor opens late, the opening and all calls give what they gave before that was a setting.
#[tactic(auto, using(crate::proofs::Untailed::opening_is, crate::proofs::Untailed::run_is, crate::proofs::Untailed::old_answers))]
pub fn without_tails()
    ensures opening { OpeningWithoutTailsIsSame }
    ensures calls { WithoutTailsGiveTheSame }
    ensures from_opening { FromOpeningWithoutTails }
{}

/// With one feeder, under a site limit of 720, the opening and all calls give what they gave before a site had several.
#[tactic(auto, using(crate::proofs::OneFeeder::opening_is, crate::proofs::OneFeeder::run_is, crate::proofs::OneFeeder::old_answers, crate::proofs::OneTest::judged_is))]
pub fn one_feeder_alone()
    ensures opening { OpeningOfOneIsSame }
    ensures calls { OneFeederGivesTheSame }
    ensures from_opening { FromOpeningOfOne }
    ensures cause { CauseOfOneIsSame }
{}
