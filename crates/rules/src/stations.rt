// What holds of every station.
ghost use Rattle.rules.specs.laws.Soundness.{SoundPlansAreSoundInEveryMinute, SoundMinutesMakeASoundPlan};
ghost use Rattle.rules.specs.laws.Sites.{SeenIsOwn, OwnIsSeen, EveryFeederSeesTheSite};
ghost use Rattle.rules.specs.laws.Stations.{OpeningsAreValid, StepsAreValid};
ghost use Rattle.rules.specs.laws.Stations.{NoHeldTimeReachesAHundredMillion, LastMinuteHasACeiling, LatenessFits64Bits};

/// Every opening leads to a valid station, and every call leaves it valid.
#[tactic(auto, using(crate::proofs::Validity::opening_valid, crate::proofs::Validity::step_valid))]
pub fn stations_valid()
    ensures opening { OpeningsAreValid }
    ensures step { StepsAreValid }
{}

/// No held time of a valid station reaches 100,000,000, nothing is drawn after minute 95,698,080, and the lateness of a feeder fits 64 bits.
#[tactic(auto, using(crate::proofs::HeldTimes::held_times, crate::proofs::HeldTimes::last_ceiling, crate::proofs::HeldTimes::lateness_fits))]
pub fn held_times()
    ensures times { NoHeldTimeReachesAHundredMillion }
    ensures last { LastMinuteHasACeiling }
    ensures lateness { LatenessFits64Bits }
{}

/// A plan is sound exactly where every minute from the clock on is, with no upper end.
#[tactic(auto, using(crate::proofs::Counts::sound_from_lem, crate::proofs::Counts::sound_true))]
pub fn sound_plans()
    ensures every_minute { SoundPlansAreSoundInEveryMinute }
    ensures whole { SoundMinutesMakeASoundPlan }
{}

/// A feeder keeps limit and bound by its own charges, and the site limit by those of all feeders, whichever of them looks.
#[tactic(auto, using(crate::proofs::Sites::seen_own, crate::proofs::Sites::own_seen, crate::proofs::Sites::whole_seen))]
pub fn feeders_seen()
    ensures own { SeenIsOwn }
    ensures seen { OwnIsSeen }
    ensures whole { EveryFeederSeesTheSite }
{}
