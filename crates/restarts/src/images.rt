// What restore and save refuse, and what they give where they do not.
ghost use Rattle.restarts.specs.RestoreAndSave.{
  RestoreRefusesByTheFirst,
  FreshStandsBesideARefusal,
  RestoreAcceptsTheRest,
  SaveRefusesByTheFirst,
  RefusedSaveKeepsTheList,
  SaveWritesTheImage,
};

/// A restore is refused with 20, 21 or 22, the first that applies, and a fresh station stands beside it; any other image is accepted.
pub fn restore_answers()
    ensures number { RestoreRefusesByTheFirst }
    ensures beside { FreshStandsBesideARefusal }
    ensures answered { RestoreAcceptsTheRest }
{}

/// A save is refused with 20 for the length of either list, else with 22 for several feeders, and writes nothing then; any other writes
/// the image and tells how many blocks differ.
pub fn save_answers()
    ensures number { SaveRefusesByTheFirst }
    ensures kept { RefusedSaveKeepsTheList }
    ensures written { SaveWritesTheImage }
{}
