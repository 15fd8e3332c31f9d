// What an enquiry tells of every accepted order that stays, after any calls.

ghost use Rattle.theorem.specs.AfterCalls.{ForAnyCalls};
ghost use Rattle.theorem.specs.EveryEnquiry.{WaitingUntilItsStart, ChargingOnceBegun, RefusedOnceFinished};

/// An enquiry finds an order waiting until its start, then charging until it is finished, with the
/// start that it keeps and its end; from then on it is refused with 15.
pub fn every_enquiry()
    ensures waiting { ForAnyCalls WaitingUntilItsStart }
    ensures charging { ForAnyCalls ChargingOnceBegun }
    ensures finished { ForAnyCalls RefusedOnceFinished }
{}
