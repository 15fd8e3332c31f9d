// What is proved of the code across restarts. These functions do nothing: their clauses are the theorem and its sentences.

ghost use Rattle.theorem.specs.AcrossRestarts.{CodeAcrossRestarts};
ghost use Rattle.theorem.specs.ClaimsAcrossRestarts.{
  AfterAnyEvents,
  ItsStationIsValid,
  ItsListIsThatOfTheRules,
  ItsStationIsOfThisList,
  AllSeenIsAsTheRulesSay,
  FurtherCallsAreTheRules,
  AllKnownWasSeen,
  RefusalsOfItsStation,
  PlansOfItsStation,
  OrdersOfItsList,
};
ghost use Rattle.theorem.specs.MinutesAcrossRestarts.{
  WhateverHappens,
  NoLineAboveItsLimitSince,
  NoLinesFurtherApartSince,
  SiteWithinItsLimitSince,
  SinceAnyImage,
  BegunKeepTheirStarts,
  NoneOfThemIsReported,
  ListAfterARefusedRestore,
  ListOfARefusedBeginning,
  ListAfterASaveNotMade,
  ListAfterASavedImage,
};

/// Whatever happens to a controller, openings, calls, saves and restores in any order, beginning with an opening
/// or with an image that something else wrote: all that is seen is what the rules say, and what they promise holds
/// of the list of calls that is in force.
pub fn code_across_restarts()
    ensures all { CodeAcrossRestarts }
    ensures valid { AfterAnyEvents ItsStationIsValid }
    ensures lists { AfterAnyEvents ItsListIsThatOfTheRules }
    ensures station { AfterAnyEvents ItsStationIsOfThisList }
    ensures seen { AfterAnyEvents AllSeenIsAsTheRulesSay }
    ensures next { AfterAnyEvents FurtherCallsAreTheRules }
    ensures known { AfterAnyEvents AllKnownWasSeen }
    ensures one { AfterAnyEvents RefusalsOfItsStation }
    ensures two { AfterAnyEvents PlansOfItsStation }
    ensures three { AfterAnyEvents OrdersOfItsList }
{}

/// In every minute, also after restarts, each line is within its limit, lines are balanced and the site is within W;
/// of an image that something else wrote from its clock on.
pub fn every_minute_since()
    ensures limit { WhateverHappens NoLineAboveItsLimitSince }
    ensures balance { WhateverHappens NoLinesFurtherApartSince }
    ensures site { WhateverHappens SiteWithinItsLimitSince }
{}

/// A saved image is accepted, and the list of calls up to its save goes on; a refused restore is followed by a new list, also
/// where a controller begins with it, and where the save that is asked for was not made.
/// The charges that have begun in an image which something else wrote keep their starts and are not reported again.
pub fn after_a_restore()
    ensures saved_image { ListAfterASavedImage }
    ensures refused_restore { ListAfterARefusedRestore }
    ensures refused_beginning { ListOfARefusedBeginning }
    ensures save_not_made { ListAfterASaveNotMade }
    ensures begun_starts { SinceAnyImage BegunKeepTheirStarts }
    ensures not_reported_again { SinceAnyImage NoneOfThemIsReported }
{}
