// What an opening makes of the settings that it is given.
ghost use Rattle.rules.specs.laws.Rounding.{BoundIsNearest, NoOtherIsNearest, BoundIsAtMostTheLimit, BoundIsZeroUpToAHalf};
ghost use Rattle.rules.specs.laws.Openings.{SettingsPastTheCountAreNotRead, RefusalThreeIsABoundOfZero};

/// The balance bound D of a feeder is c × N / 100 rounded to the nearest whole number, an exact half to the even one. It is at most N, and
/// 0 exactly where c × N is at most 50.
#[tactic(auto, using(crate::proofs::Rounding::bound_nearest, crate::proofs::Rounding::nearest_only, crate::proofs::Rounding::bound_at_most, crate::proofs::Rounding::bound_zero))]
pub fn bound_rounding()
    ensures nearest { BoundIsNearest }
    ensures no_other { NoOtherIsNearest }
    ensures within_limit { BoundIsAtMostTheLimit }
    ensures zero { BoundIsZeroUpToAHalf }
{}

/// An opening reads no settings past the count of feeders, and is refused with 3 exactly where the bound of a feeder is 0.
#[tactic(auto, using(crate::proofs::Openings::past_the_count, crate::proofs::Rounding::refused_three))]
pub fn settings_read()
    ensures past_the_count { SettingsPastTheCountAreNotRead }
    ensures refused_three { RefusalThreeIsABoundOfZero }
{}
