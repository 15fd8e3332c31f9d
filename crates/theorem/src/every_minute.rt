// What holds in every minute, gone or to come, after any calls.

ghost use Rattle.theorem.specs.AfterCalls.{AfterAnyCalls};
ghost use Rattle.theorem.specs.EveryMinute.{NoLineAboveItsLimit, NoLinesFurtherApart, SiteWithinItsLimit};

/// In every minute, gone or to come: no line of a feeder is above its limit N, no two of its lines
/// are further apart than its bound D, and all feeders together draw no more than the site's limit W.
pub fn every_minute()
    ensures limit { AfterAnyCalls NoLineAboveItsLimit }
    ensures balance { AfterAnyCalls NoLinesFurtherApart }
    ensures site { AfterAnyCalls SiteWithinItsLimit }
{}
