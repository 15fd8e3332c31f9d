// What holds of every accepted order, after any calls.

ghost use Rattle.theorem.specs.AfterCalls.{ForAnyCalls, AfterAnyCalls};
ghost use Rattle.theorem.specs.EveryOrder.{OnAFeeder, NotBeforeItsOrderMinute, UnbrokenForItsFullTime, ReportedOnceBegun, NotReportedBefore, BegunStartsStay, EndsUnderTheCeiling};

/// Every accepted order is on a feeder that is there. One that stays does not start before its order
/// minute, draws without a break, is reported once when it has begun and never before, keeps its
/// start from then on, and ends under the ceiling.
pub fn every_order()
    ensures feeder { AfterAnyCalls OnAFeeder }
    ensures not_early { AfterAnyCalls NotBeforeItsOrderMinute }
    ensures unbroken { AfterAnyCalls UnbrokenForItsFullTime }
    ensures reported_once { AfterAnyCalls ReportedOnceBegun }
    ensures never_before { AfterAnyCalls NotReportedBefore }
    ensures unmoved { ForAnyCalls BegunStartsStay }
    ensures ceiling { AfterAnyCalls EndsUnderTheCeiling }
{}
