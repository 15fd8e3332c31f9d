// What holds where the calls go on from an image that comes from elsewhere.
ghost use Rattle.restarts.specs.Elsewhere.{
  LimitFromItsClock,
  BalanceFromItsClock,
  SiteLimitFromItsClock,
  OrdersAreOnFeeders,
  TicketsGoOn,
  NoOtherIsReported,
  NoOtherIsFound,
  NoBegunStartMoves,
  BegunAsTheImageHasThem,
  BegunAreNotReportedAgain,
};
ghost use Rattle.restarts.specs.OrdersElsewhere.{
  NoStartBeforeItsOrder,
  BegunIsReportedOnce,
  WaitingIsNotReported,
  WaitingIsFound,
  ChargingIsFound,
  FinishedIsNotFound,
  WithdrawnIsNotReported,
  WithdrawnIsNotFound,
};

/// From the clock of the image on, limit, balance and site limit hold with the charges that it holds counted too; tickets go on, and
/// starts of charges that had begun stay.
pub fn image_from_elsewhere()
    ensures limit { LimitFromItsClock }
    ensures balance { BalanceFromItsClock }
    ensures site { SiteLimitFromItsClock }
    ensures feeders { OrdersAreOnFeeders }
    ensures tickets { TicketsGoOn }
    ensures no_other { NoOtherIsReported }
    ensures no_other_found { NoOtherIsFound }
    ensures unmoved { NoBegunStartMoves }
    ensures begun { BegunAsTheImageHasThem }
    ensures not_again { BegunAreNotReportedAgain }
{}

/// Each order that the image holds or that was accepted since is reported once, is found waiting, then charging, then no more, and one
/// that was withdrawn has no charge.
pub fn orders_from_elsewhere()
    ensures not_early { NoStartBeforeItsOrder }
    ensures reported { BegunIsReportedOnce }
    ensures not_reported { WaitingIsNotReported }
    ensures waits { WaitingIsFound }
    ensures charges { ChargingIsFound }
    ensures finished { FinishedIsNotFound }
    ensures withdrawn_not_reported { WithdrawnIsNotReported }
    ensures withdrawn_not_found { WithdrawnIsNotFound }
{}
