// What restore and save of the code refuse, and what they give where they do not.
ghost use Rattle.theorem.specs.SavedAndRestored.{
  RestoreIsRefusedForTheFirst,
  RefusedRestoreGivesTheFresh,
  OtherImagesAreAccepted,
  SaveIsRefusedForTheFirst,
  RefusedSaveLeavesTheList,
  OtherSavesWriteTheImage,
};

/// A restore is refused exactly for the first condition that applies, and the fresh station stands beside it; any other
/// list of bytes is an image, and its station stands. A save is refused exactly for the first condition that applies, and
/// leaves the list; any other writes the image and answers how many blocks differ.
#[tactic(auto, using(crate::proofs::SavedAndRestored::restore_fresh, crate::proofs::SavedAndRestored::restore_others, crate::proofs::SavedAndRestored::save_list))]
pub fn images_refused()
    ensures restore { RestoreIsRefusedForTheFirst }
    ensures fresh { RefusedRestoreGivesTheFresh }
    ensures accepted { OtherImagesAreAccepted }
    ensures save { SaveIsRefusedForTheFirst }
    ensures list { RefusedSaveLeavesTheList }
    ensures written { OtherSavesWriteTheImage }
{}
