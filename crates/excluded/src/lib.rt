// Wrong stations, in specs/, and in proofs/ that what is said of a station is false of each: so these statements exclude something. This
// crate has no code: each function below is a law, and its clauses say what was proved.
#![tactic(auto)]

ghost use Rattle.excluded.specs.LawsOfFields.{CallIsItsFields, OpeningIsItsFields, PreviewIsItsFields, CommitIsItsFields, PlanIsItsFields, BetterIsItsFields, BoardIsItsFields, WithdrawalIsItsFields, ListIsItsFields};
ghost use Rattle.excluded.specs.LawsOfTests.{CallsAreTested, PreviewsAreTested, CommitsAreTested, PlansAreTested, BetterIsTested, BoardsAreTested, WithdrawalsAreTested, ListsAreTested, FoundIsTested};
ghost use Rattle.excluded.specs.LawsOfEntries.{EntriesOfCallsAgree, EntriesOfPreviewsAgree, EntriesOfCommitsAgree, EntriesOfPlansAgree, PlansAgree, EntriesOfBoardsAgree, EntriesOfWithdrawalsAgree, EntriesOfListsAgree, ExactlyTheseOfCalls, ExactlyTheseOfPreviews, ExactlyTheseOfCommits, ExactlyTheseOfPlans, ExactlyTheseOfBetter, ExactlyTheseOfBoards, ExactlyTheseOfWithdrawals, ExactlyTheseOfLists, RulesBreakNone, EachAloneOfCalls, EachAloneOfOpenings, EachAloneOfPreviews, EachAloneOfCommits, EachAloneOfPlans, EachAloneOfBetter, EachAloneOfBoards, EachAloneOfWithdrawals, EachAloneOfLists};
ghost use Rattle.excluded.specs.LawsOfStations.{StationsAreReached, PartsAreTheRules};
ghost use Rattle.excluded.specs.LawsOfWrongCalls.{WrongCallsAreExcluded, WrongOpeningsAreExcluded};
ghost use Rattle.excluded.specs.LawsOfWrongPlans.{WrongOrdersAreExcluded, WrongPlansAreExcluded, WrongBoardsAreExcluded, WrongWithdrawalsAreExcluded};
ghost use Rattle.excluded.specs.LawsOfWrongLists.{WrongListsAreExcluded};

/// What is said of a station is false of each of these wrong ones: of one call, of orders and plans, or of a list of calls.
#[tactic(none)]
pub fn wrong_stations()
    ensures calls { WrongCallsAreExcluded }
    ensures openings { WrongOpeningsAreExcluded }
    ensures orders { WrongOrdersAreExcluded }
    ensures plans { WrongPlansAreExcluded }
    ensures boards { WrongBoardsAreExcluded }
    ensures withdrawals { WrongWithdrawalsAreExcluded }
    ensures lists { WrongListsAreExcluded }
    ensures parts { PartsAreTheRules }
{}

/// The fields one by one, which are tried below, are all that is said of a station.
#[tactic(none)]
pub fn fields_are_all()
    ensures calls { CallIsItsFields }
    ensures openings { OpeningIsItsFields }
    ensures previews { PreviewIsItsFields }
    ensures commits { CommitIsItsFields }
    ensures plans { PlanIsItsFields }
    ensures better { BetterIsItsFields }
    ensures boards { BoardIsItsFields }
    ensures withdrawals { WithdrawalIsItsFields }
    ensures lists { ListIsItsFields }
{}

/// Each field has a test that the checker computes, and the test is true exactly where the field holds. That no ticket but those of orders
/// is found, it tells of every station that refuses an enquiry of a ticket that no charge has.
#[tactic(none)]
pub fn fields_are_tested()
    ensures calls { CallsAreTested }
    ensures previews { PreviewsAreTested }
    ensures commits { CommitsAreTested }
    ensures plans { PlansAreTested }
    ensures better { BetterIsTested }
    ensures boards { BoardsAreTested }
    ensures withdrawals { WithdrawalsAreTested }
    ensures lists { ListsAreTested }
    ensures found { FoundIsTested }
{}

/// The tests of each wrong station, and of the rules, come out as its entry says.
#[tactic(none)]
pub fn entries_agree()
    ensures calls { EntriesOfCallsAgree }
    ensures previews { EntriesOfPreviewsAgree }
    ensures commits { EntriesOfCommitsAgree }
    ensures plans { EntriesOfPlansAgree }
    ensures better { PlansAgree }
    ensures boards { EntriesOfBoardsAgree }
    ensures withdrawals { EntriesOfWithdrawalsAgree }
    ensures lists { EntriesOfListsAgree }
{}

/// So each wrong station breaks the fields that its entry names and no other, and the rules break none.
#[tactic(none)]
pub fn exactly_these_break()
    ensures calls { ExactlyTheseOfCalls }
    ensures previews { ExactlyTheseOfPreviews }
    ensures commits { ExactlyTheseOfCommits }
    ensures plans { ExactlyTheseOfPlans }
    ensures better { ExactlyTheseOfBetter }
    ensures boards { ExactlyTheseOfBoards }
    ensures withdrawals { ExactlyTheseOfWithdrawals }
    ensures lists { ExactlyTheseOfLists }
    ensures rules { RulesBreakNone }
{}

/// Each field is the only one that some wrong station breaks, but for those that follow from others.
#[tactic(none)]
pub fn each_breaks_alone()
    ensures calls { EachAloneOfCalls }
    ensures openings { EachAloneOfOpenings }
    ensures previews { EachAloneOfPreviews }
    ensures commits { EachAloneOfCommits }
    ensures plans { EachAloneOfPlans }
    ensures better { EachAloneOfBetter }
    ensures boards { EachAloneOfBoards }
    ensures withdrawals { EachAloneOfWithdrawals }
    ensures lists { EachAloneOfLists }
{}

/// An opening and calls lead to each station that is written down.
#[tactic(none)]
pub fn stations_are_reached()
    ensures { StationsAreReached }
{}
