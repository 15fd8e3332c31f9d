// Lists of calls whose values were worked out by hand.
ghost use Rattle.guarantee.specs.Example.{FirstCallsAreKnown, CallsAreKnown, StartsAreFound, CountsAreFound};
ghost use Rattle.guarantee.specs.Examples.{
  RatesAreCounted,
  TailsAreCounted,
  WithdrawnOrdersAreKnown,
  WithdrawnOrdersAreNotCounted,
  OrdersOfTwoAreKnown,
  FeedersAreCountedApart,
};

/// Thirteen calls with a preview, an order that cannot be met in time, and calls that are refused.
pub fn thirteen_calls()
    ensures first { FirstCallsAreKnown }
    ensures known { CallsAreKnown }
    ensures starts { StartsAreFound }
    ensures counts { CountsAreFound }
{}

/// Four shorter lists: charges of both rates, a charge in its tail, withdrawals, and two feeders under a site limit.
pub fn shorter_lists()
    ensures rates { RatesAreCounted }
    ensures tails { TailsAreCounted }
    ensures withdrawals { WithdrawnOrdersAreKnown }
    ensures withdrawn_not_counted { WithdrawnOrdersAreNotCounted }
    ensures feeders { OrdersOfTwoAreKnown }
    ensures counted_apart { FeedersAreCountedApart }
{}
