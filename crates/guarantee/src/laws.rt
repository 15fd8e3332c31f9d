// Laws about refusals, plans, orders and counts that no list of calls can break.
ghost use Rattle.guarantee.specs.Counts.{SiteIsTheSum};
ghost use Rattle.guarantee.specs.Follows.{
  OwnAnswersAreNoRefusals,
  ChargesAreUnbroken,
  NothingBeforeItsOrder,
  TakingFollows,
  FreePlaceFollows,
  ReportedStartsStay,
  BoardsShowEnquiries,
};

/// What is said of answers, plans, withdrawals and starts twice over: each of these follows from the rest, whatever a station answers.
pub fn fields_that_follow()
    ensures answered { OwnAnswersAreNoRefusals }
    ensures unbroken { ChargesAreUnbroken }
    ensures not_before_order { NothingBeforeItsOrder }
    ensures taken { TakingFollows }
    ensures place_free { FreePlaceFollows }
    ensures unmoved { ReportedStartsStay }
{}

/// The board shows of each ticket what an enquiry of it says.
#[tactic(auto, using(crate::proofs::Boards::place_enquired))]
pub fn board_places()
    ensures enquired { BoardsShowEnquiries }
{}

/// What the site draws in a minute is the sum of what all lines of all feeders count.
#[tactic(auto, using(crate::proofs::Sums::site_sum))]
pub fn site_count()
    ensures sum { SiteIsTheSum }
{}
