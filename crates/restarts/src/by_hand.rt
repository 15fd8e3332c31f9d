// Events and a station whose values were worked out by hand.
ghost use Rattle.restarts.specs.Cases.{
  CallsAfterTheSaveFallOut,
  LaterSaveIsStillThere,
  RefusedRestoreBeginsAnew,
  SeveralAreNotSaved,
  OpeningsOnTheBus,
};
ghost use Rattle.restarts.specs.CasesElsewhere.{UnevenIsValid, UnevenGoesOn, UnevenCounts};

/// Which list of calls is in force after saves, restores, a list that is no image, several feeders, and openings on the bus.
pub fn lists_in_force()
    ensures restored_first { CallsAfterTheSaveFallOut }
    ensures restored_second { LaterSaveIsStillThere }
    ensures refused_restore { RefusedRestoreBeginsAnew }
    ensures several { SeveralAreNotSaved }
    ensures bus { OpeningsOnTheBus }
{}

/// A station that calls never lead to and restore accepts: its lines differ too much before its clock, and no more from then on.
pub fn uneven_station()
    ensures valid { UnevenIsValid }
    ensures known { UnevenGoesOn }
    ensures counts { UnevenCounts }
{}
