// A charging station: one to four feeders under one clock, one ticket row and the site's limit; how it is opened, what is
// read off it, and how its clock is moved.
#![tactic(auto)]

pub mod beside;
pub mod bounds;
pub mod holder;
pub mod moved;
pub mod only;
pub mod open;
pub mod place;
pub mod rest;
pub mod surroundings;

use charges::Charges;
pub use only::One;

// "1 to 4 feeders"
pub const FEEDERS: usize = 4;

// "each with its own N, c, r and 180 places": the limit N, the percentage c, the bound D, r, and the charges.
#[derive(Clone, Copy)]
pub struct Feeder {
    pub limit: u32,
    pub percent: u32,
    pub bound: u32,
    // r: how many minutes a point draws after its end.
    pub tail: u32,
    pub charges: Charges,
}

// The first `count` feeders are those of the site, and `site` is its limit W.
#[derive(Clone, Copy)]
pub struct Station {
    pub count: usize,
    pub site: u32,
    pub clock: u32,
    pub next: u32,
    pub feeders: [Feeder; FEEDERS],
}

// An answer, and the station that is handed back beside it.
#[derive(Clone, Copy)]
pub struct Done<A, S> {
    pub answer: A,
    pub station: S,
}
