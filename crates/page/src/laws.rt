// What was proved of the pages and of all that is printed: each function is a law, and has no code.
ghost use Rattle.page.specs.LawsOfPages.{PagesAreLines, NoStationIsALine, NumbersFitColumns, EachChargeHasItsRow, RowsRise, TicketStandsOnce, PagesHaveRoom, ThereIsAPage, NoPageIsSpare};
ghost use Rattle.page.specs.LawsOfWalls.{SavedIsPrinted, AcceptedIsPrinted, RefusedPrintsNoStation, OtherLengthPrintsNoStation, FirstBytesTell, NothingPrintsNoStation, ZerosPrintNoStation, CaseEIsPrinted};
ghost use Rattle.page.specs.LawsOfCases.{RowsAreThese, CaseEIsReached, PageIsThis, CountsAreThese};

/// Each line has exactly 37 characters and a line feed, and no number exceeds its column.
#[tactic(auto, using(crate::proofs::LinedPages::station_lined, crate::proofs::Lining::no_station_lined, crate::proofs::Walling::valid_fits))]
pub fn page_lines()
    ensures station { PagesAreLines }
    ensures no_station { NoStationIsALine }
    ensures numbers { NumbersFitColumns }
{}

/// Each charge held has its row, in the order of the tickets, and no other line shows its ticket.
#[tactic(auto, using(crate::proofs::Showing::charge_stands, crate::proofs::Rowing::rows_rise))]
pub fn page_rows()
    ensures each_charge { EachChargeHasItsRow }
    ensures rise { RowsRise }
    ensures shown_once { TicketStandsOnce }
{}

/// There are pages enough for the charges held, at least one, and no more than that.
#[tactic(auto, using(crate::proofs::Counting::pages_enough, crate::proofs::Counting::pages_some, crate::proofs::Counting::pages_needed))]
pub fn page_counts()
    ensures enough { PagesHaveRoom }
    ensures at_least_one { ThereIsAPage }
    ensures none_spare { NoPageIsSpare }
{}

/// The image of a station prints the pages of that station, and any other input one line that says that there is none.
#[tactic(auto, using(crate::proofs::Walling::wall_saved, crate::proofs::Walling::wall_accepted, crate::proofs::Walling::wall_refused, crate::proofs::Walling::wall_length, crate::proofs::Walling::wall_first))]
pub fn printed_wall()
    ensures saved { SavedIsPrinted }
    ensures accepted { AcceptedIsPrinted }
    ensures refused { RefusedPrintsNoStation }
    ensures other_length { OtherLengthPrintsNoStation }
    ensures first_bytes { FirstBytesTell }
{}

/// Rows, a whole page and numbers of pages that were written down by hand.
#[tactic(auto, using(crate::proofs::Cases::rows_hold, crate::proofs::Cases::e_reached, crate::proofs::Cases::page_holds, crate::proofs::Cases::counts_hold))]
pub fn worked_pages()
    ensures rows { RowsAreThese }
    ensures reached { CaseEIsReached }
    ensures page { PageIsThis }
    ensures counts { CountsAreThese }
{}

/// What is printed of no input, of zeros, and of the station of the page that was written down.
#[tactic(auto, using(crate::proofs::Images::nothing_printed, crate::proofs::Images::zeros_printed, crate::proofs::Images::case_e_printed))]
pub fn worked_walls()
    ensures nothing { NothingPrintsNoStation }
    ensures zeros { ZerosPrintNoStation }
    ensures case_e { CaseEIsPrinted }
{}
