// What holds of every withdrawn order, after any calls.

ghost use Rattle.theorem.specs.AfterCalls.{ForAnyCalls, AfterAnyCalls};
ghost use Rattle.theorem.specs.EveryWithdrawal.{WithdrawnNeverReported, WithdrawnNotFound};

/// A withdrawn order has no charge: it is never reported, and an enquiry of its ticket is refused
/// with 15.
pub fn every_withdrawal()
    ensures not_reported { AfterAnyCalls WithdrawnNeverReported }
    ensures not_found { ForAnyCalls WithdrawnNotFound }
{}
