// What a preview shows and a commit gives, of every call that is made to a valid station.
ghost use Rattle.theorem.specs.Ordered.{PreviewShowsTheEarliest, PreviewChangesNothing, CommitGivesTheEarliest, CommitRefusesAnother, CommitAddsOneCharge};

/// A preview shows the earliest sound start of the order, and changes nothing.
#[tactic(auto, using(crate::proofs::Ordered::preview_shows_the_earliest, crate::proofs::Ordered::preview_changes_nothing))]
pub fn previews()
    ensures earliest { PreviewShowsTheEarliest }
    ensures unchanged { PreviewChangesNothing }
{}

/// A commit gives the next ticket and exactly the start that was shown where this is the earliest
/// sound one, and is refused with 16 where it is not. Nothing changes then but that the feeder
/// holds one more charge.
#[tactic(auto, using(crate::proofs::Ordered::commit_adds_one_charge))]
pub fn commits()
    ensures earliest { CommitGivesTheEarliest }
    ensures another { CommitRefusesAnother }
    ensures others { CommitAddsOneCharge }
{}
