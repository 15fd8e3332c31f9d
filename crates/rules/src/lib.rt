// The rules of the charging yard are definitions: see specs/. Beside a number that other crates' code shares, this crate has functions
// without a body: each clause of theirs is a law of the rules, which is proved.
#![tactic(auto)]

mod boards;
mod moves;
mod replans;
mod settings_given;
mod starts;
mod stations;
mod withdrawn;
mod worked_cases;

pub use boards::board_answers;
pub use moves::clock_moves;
pub use replans::{fitting_charges, latest_starts, rounds_of_lines, weights_table};
pub use settings_given::{bound_rounding, settings_read};
pub use starts::{candidate_starts, searches_complete};
pub use stations::{feeders_seen, held_times, sound_plans, stations_valid};
pub use withdrawn::withdrawals;
pub use worked_cases::cases_hold;

// The line that stands for the other feeders: a feeder has lines 1 to 3, and what the others draw is counted as a fourth.
pub const OTHERS: u32 = 4;
