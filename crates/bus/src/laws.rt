// What is proved of the C functions together. These functions do nothing: their clauses are the laws.
ghost use Rattle.bus.specs.Chains.{ChainsAfterAnOpening};
ghost use Rattle.bus.specs.Returns.{ZeroOfACall, ZeroOfAnOpening, NoBlockDiffers};
ghost use Rattle.bus.specs.InC.{AnswersInC, ImageInC, ClaimInC, LimitInC, BalanceInC, SiteInC};

/// C functions called one after another, each on the image that the last one left, return and leave what the rules
/// answer, from an opening that returns 0 or from an image that restore accepts, whatever wrote it.
#[tactic(auto, using(crate::proofs::Chaining::chained_opened, crate::proofs::InForce::answers_in_c, crate::proofs::InForce::image_in_c))]
pub fn chains_of_c_calls()
    ensures after_an_opening { ChainsAfterAnOpening }
    ensures answers { AnswersInC }
    ensures image { ImageInC }
{}

/// In every minute each line is within its limit, lines are balanced and the site is within W: since the last opening
/// that returned 0, or from the clock of the image on with which the calls began.
#[tactic(auto, using(crate::proofs::InForce::claim_in_c, crate::proofs::InForce::limit_in_c, crate::proofs::InForce::balance_in_c, crate::proofs::InForce::site_in_c))]
pub fn every_minute_in_c()
    ensures claim { ClaimInC }
    ensures limit { LimitInC }
    ensures balance { BalanceInC }
    ensures site { SiteInC }
{}

/// A C function returns 0 exactly where nothing is refused, and a call that changes nothing tells that no block of the
/// image differs.
#[tactic(auto, using(crate::proofs::Returning::zero_returned, crate::proofs::Returning::zero_opened, crate::proofs::Chaining::kept_none))]
pub fn zero_returned_exactly()
    ensures of_a_call { ZeroOfACall }
    ensures of_an_opening { ZeroOfAnOpening }
    ensures no_block { NoBlockDiffers }
{}
