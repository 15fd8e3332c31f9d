// A board: the starts of the tickets that are asked for.
ghost use Rattle.std.specs.Prelude.{◌≡◌, true, ◌≤◌, length, replicate};
ghost use Rattle.rules.specs.Site.{site_charges};
ghost use Rattle.rules.specs.Calls.{rises_from, not_held, written, board as board_call, step};
ghost use Rattle.boards.specs.Board.{Boarded};
ghost use Rattle.station.specs.View.{view, Valid};
ghost use Rattle.station.specs.Given.{Keeps};
ghost use Rattle.site.specs.Answers.{board_answer};

use boards::{board_refusal, none_held};
use refusals::Refusal;
use station::Station;

// Looks at all feeders, from the last one to the first. The answer: at how many charges.
fn board_feeders(station: &Station, asked: &[u32], answers: &mut [u32]) -> usize
    requires { Valid station.now × (rises_from 0 asked.now ≡ true) × (length asked.now ≤ length answers.old) }
    ensures { Boarded (site_charges (view station.now)) asked.now (written (replicate (length asked.now) not_held) answers.old) answers.new result }
{
    let mut looked = 0;
    none_held(answers, asked.len());
    for feeder in station.feeders().iter().rev() {
        looked += boards::board(&feeder.charges, asked, answers);
    }
    looked
}

// Writes the start of each ticket asked for, or 4,294,967,295, to the front of a lent list. The answer: how many charges were looked at.
pub fn board(station: &Station, asked: &[u32], answers: &mut [u32]) -> Result<usize, Refusal>
    requires { Valid station.now }
    ensures { Keeps (step (view station.now) (board_call asked.now answers.old)) station.now (board_answer result) answers.new }
{
    board_refusal(asked, answers)?;
    let looked = board_feeders(station, asked, answers);
    Ok(looked)
}
