// The image of a station as bytes, and which images are taken, in specs/; in proofs/ the laws of both. This crate has no code: each function
// below is a law, and its clauses say what was proved.
#![tactic(auto)]

ghost use Rattle.layout.specs.LawsOfPlaces.{EachPlaceHasItsByte, ChecksFit, EachByteHasAPlace, EachNumberHasAByte, PlacesAreApart};
ghost use Rattle.layout.specs.LawsOfRestoring.{ExactlyTheseAreAccepted, OthersAreRefused, ImageDeterminesStation, TestIsValidity, RestoredIsValid, RestoredHasOneFeeder, RefusedIsFresh, WithoutSiteLimitIsRefused, ChangeInBlockIsFound, ChangeOfAcceptedIsFound};
ghost use Rattle.layout.specs.LawsOfSaving.{SavedIsRestored, WrittenIsRestored, AcceptedSavesToItself, ImageIsWritten, SeveralAreRefused, OtherSizeIsRefused, AtMostNineDiffer, NoneDiffersOfEqual, UnchangedRewritesNone, NoBlockLeavesPrevious};
ghost use Rattle.layout.specs.LawsOfCases.{PlacesAreThese, BytesAreThese, ChecksAreThese, LargestCheck, SwapChangesCheck, OneBlockDiffers, RestoreRefusalsAreThese, SaveRefusalsAreThese, ShortIsNotWritten, ShortIsNotRead, ZerosAreRefused, TwoFeedersAreNotSaved, SmallIsRestored, RecordsAreJudged, StationsAreJudged};

/// A station that is saved and restored is the same station, and an accepted image saves to itself.
#[tactic(auto, using(crate::proofs::RoundTrip::restored_saved, crate::proofs::RoundTrip::saved_restored, crate::proofs::RoundTrip::accepted_saves))]
pub fn round_trip()
    ensures restored { SavedIsRestored }
    ensures written { WrittenIsRestored }
    ensures saved { AcceptedSavesToItself }
{}

/// Restore accepts exactly the images of valid stations of one feeder, and an image tells which station it is of.
#[tactic(auto, using(crate::proofs::RoundTrip::accepted_exactly, crate::proofs::RoundTrip::others_refused, crate::proofs::RoundTrip::image_determines, crate::proofs::Validity::valid_exactly))]
pub fn accepted_images()
    ensures exactly { ExactlyTheseAreAccepted }
    ensures others { OthersAreRefused }
    ensures determined { ImageDeterminesStation }
    ensures tested { TestIsValidity }
{}

/// Whatever list is restored, a valid station of one feeder stands afterwards, the fresh one beside a refusal.
#[tactic(auto, using(crate::proofs::RoundTrip::restoring_valid, crate::proofs::RoundTrip::restoring_one, crate::proofs::Refusing::refused_state))]
pub fn restored_station()
    ensures valid { RestoredIsValid }
    ensures one_feeder { RestoredHasOneFeeder }
    ensures fresh { RefusedIsFresh }
{}

/// Any one changed byte of an image is found by the check of its block.
#[tactic(auto, using(crate::proofs::Changing::change_found, crate::proofs::Changing::accepted_change_found))]
pub fn changed_byte()
    ensures of_block { ChangeInBlockIsFound }
    ensures of_image { ChangeOfAcceptedIsFound }
{}

/// What stands at each place of an image, and that 32 bits hold every check.
#[tactic(auto, using(crate::proofs::Imaging::image_at, crate::proofs::Checks::check_most))]
pub fn image_bytes()
    ensures each_place { EachPlaceHasItsByte }
    ensures checks_fit { ChecksFit }
{}

/// The bytes of the records and their places are matched one to one.
#[tactic(auto, using(crate::proofs::Laying::arranged, crate::proofs::Laying::each_number, crate::proofs::Laying::places_apart))]
pub fn record_places()
    ensures each_byte { EachByteHasAPlace }
    ensures each_number { EachNumberHasAByte }
    ensures apart { PlacesAreApart }
{}

/// What save writes, what it refuses, and how many blocks it says differ from the previous image.
#[tactic(auto, using(crate::proofs::Refusing::saving_written, crate::proofs::Refusing::saving_several, crate::proofs::Refusing::saving_refused, crate::proofs::Comparing::differing_most, crate::proofs::Comparing::equal_images, crate::proofs::Comparing::accepted_same, crate::proofs::Comparing::none_written))]
pub fn saved_image()
    ensures written { ImageIsWritten }
    ensures several_refused { SeveralAreRefused }
    ensures other_size_refused { OtherSizeIsRefused }
    ensures at_most_nine { AtMostNineDiffer }
    ensures none_differs { NoneDiffersOfEqual }
    ensures unchanged { UnchangedRewritesNone }
    ensures previous_left { NoBlockLeavesPrevious }
{}

/// Images worked out by hand: bytes, checks and places.
#[tactic(auto, using(crate::proofs::Cases::places_hold, crate::proofs::Cases::images_hold, crate::proofs::Cases::checks_hold, crate::proofs::Cases::largest_check, crate::proofs::Cases::swap_found, crate::proofs::Cases::one_differs, crate::proofs::Examples::small_restored))]
pub fn worked_images()
    ensures places { PlacesAreThese }
    ensures bytes { BytesAreThese }
    ensures checks { ChecksAreThese }
    ensures largest_check { LargestCheck }
    ensures swap { SwapChangesCheck }
    ensures one_differs { OneBlockDiffers }
    ensures restored { SmallIsRestored }
{}

/// Refusals worked out by hand: which number is given where several apply, short lists, images of zeros and images without W.
#[tactic(auto, using(crate::proofs::Cases::rows_hold, crate::proofs::Cases::save_rows_hold, crate::proofs::Cases::short_refused, crate::proofs::Cases::short_not_read, crate::proofs::Examples::zeros_refused, crate::proofs::Examples::old_refused, crate::proofs::Examples::two_not_saved))]
pub fn worked_refusals()
    ensures restoring { RestoreRefusalsAreThese }
    ensures saving { SaveRefusalsAreThese }
    ensures short_not_written { ShortIsNotWritten }
    ensures short_not_read { ShortIsNotRead }
    ensures zeros { ZerosAreRefused }
    ensures without_site_limit { WithoutSiteLimitIsRefused }
    ensures two_feeders { TwoFeedersAreNotSaved }
{}

/// Stations on both sides of each edge of what restore accepts, worked out by hand.
#[tactic(auto, using(crate::proofs::Cases::records_hold, crate::proofs::Cases::validity_holds))]
pub fn worked_stations()
    ensures charges { RecordsAreJudged }
    ensures stations { StationsAreJudged }
{}
