// What holds across restarts: statements in specs/, proofs in proofs/. Each clause of a function here is a law; nothing runs.
#![tactic(auto)]

ghost use Rattle.restarts.specs.Bus.{OnTheBus, StationIsOfTheBusList, OrdersAreKeptOnTheBus};
ghost use Rattle.restarts.specs.Claims.{
  StationIsOfTheListInForce,
  SeenIsWhatWasDue,
  StationsStayValid,
  RefusalsAcrossRestarts,
  PlansAcrossRestarts,
  OrdersAcrossRestarts,
  OrdersSinceAnOpening,
  OrdersSinceARefusedRestore,
};
ghost use Rattle.restarts.specs.Restarts.{AcrossRestarts};

pub mod by_hand;
pub mod from_elsewhere;
pub mod images;

/// After an opening and any openings, calls, saves, restores and images from elsewhere, the station is the one that the list of calls
/// in force leaves, and what is guaranteed holds of this list.
pub fn across_restarts()
    ensures all { AcrossRestarts }
    ensures station { StationIsOfTheListInForce }
    ensures seen { SeenIsWhatWasDue }
    ensures valid { StationsStayValid }
    ensures one { RefusalsAcrossRestarts }
    ensures two { PlansAcrossRestarts }
    ensures three { OrdersAcrossRestarts }
    ensures since_opening { OrdersSinceAnOpening }
    ensures since_refused_restore { OrdersSinceARefusedRestore }
{}

/// A program that keeps nothing but an image has the list of all its calls since the last opening that it took.
pub fn on_the_bus()
    ensures list { OnTheBus }
    ensures station { StationIsOfTheBusList }
    ensures orders { OrdersAreKeptOnTheBus }
{}
