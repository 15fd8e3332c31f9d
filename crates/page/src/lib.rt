// The page for the office wall: a heading and 24 rows to a page, a row to each charge held.
#![tactic(auto)]

mod laws;
mod pages;
mod row;

pub use laws::{page_counts, page_lines, page_rows, printed_wall, worked_pages, worked_walls};
pub use pages::{Listing, MOST_BYTES};
pub use row::NO_STATION;
