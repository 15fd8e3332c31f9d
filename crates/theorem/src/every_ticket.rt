// What holds of the tickets, after any calls.

ghost use Rattle.theorem.specs.AfterCalls.{ForAnyCalls, AfterAnyCalls};
ghost use Rattle.theorem.specs.EveryTicket.{OneTwoThree, NoOtherReported, NoOtherFound};

/// The tickets of the accepted orders are 1, 2, 3 and so on. No other ticket is ever reported, and
/// none but theirs is found by an enquiry.
pub fn every_ticket()
    ensures numbered { AfterAnyCalls OneTwoThree }
    ensures no_other_reported { AfterAnyCalls NoOtherReported }
    ensures no_other_found { ForAnyCalls NoOtherFound }
{}
