// The board: the starts of the charges that are asked for by their tickets, feeder by feeder.
#![tactic(auto)]

ghost use Rattle.std.specs.Prelude.{◌≡◌, ◌&&◌, ◌≤◌, leb, ltb, length, get_or, replicate};
ghost use Rattle.rules.specs.Basics.{first_of};
ghost use Rattle.rules.specs.Site.{places, State};
ghost use Rattle.rules.specs.Calls.{refusals, board as board_call, rises_from, not_held, written};
ghost use Rattle.refusals.specs.Refusals.{refusal_in};
ghost use Rattle.charges.specs.Arrays.{charges_of};
ghost use Rattle.boards.specs.Board.{CanBoard, Boarded};

use charges::{Charges, PLACES};
use refusals::Refusal;

// "4,294,967,295 for one not held"
const NOT_HELD: u32 = u32::MAX;

// Whether each number is above the one before it.
fn rises(list: &[u32]) -> bool
    ensures { result ≡ rises_from 0 list.now }
{
    list.is_sorted_by(|before, next| *before < *next)
}

// The first refusal of a board, whatever the station holds.
pub fn board_refusal(asked: &[u32], answers: &[u32]) -> Result<(), Refusal>
    ensures { (s : State) → refusal_in result ≡ first_of (refusals s (board_call asked.now answers.now)) }
{
    if !rises(asked) || PLACES < asked.len() {
        return Err(Refusal::TicketsNotRising);
    }
    if answers.len() < asked.len() {
        return Err(Refusal::AnswersTooShort);
    }
    Ok(())
}

// Whether a charge is held at the place, with a ticket that is not above this one.
fn is_looked_at(charges: &Charges, place: usize, ticket: u32) -> bool
    ensures { result ≡ (ltb place charges.now.held && leb (get_or charges.now.tickets place 0) ticket) }
{
    place < charges.held && charges.tickets[place] <= ticket
}

// Writes to the first `count` places that no ticket is held: the answers while no charge was looked at, and what a list holds when it is
// lent.
pub fn none_held(answers: &mut [u32], count: usize)
    requires { count ≤ length answers.old }
    ensures { answers.new ≡ written (replicate count not_held) answers.old }
{
    answers[..count].fill(NOT_HELD);
}

// "It walks the held charges once": they and the tickets rise, so that a charge is passed with the first ticket that is not
// below its own, and a ticket is done at the first charge above it. What a feeder does not hold keeps its answer. How many
// charges were passed is told.
pub fn board(charges: &Charges, asked: &[u32], answers: &mut [u32]) -> usize
    requires { CanBoard charges.now asked.now answers.old }
    ensures { Boarded (charges_of charges.now) asked.now answers.old answers.new result }
{
    let mut place = 0;
    let mut answered = 0;
    while answered < asked.len() {
        let ticket = asked[answered];
        if is_looked_at(charges, place, ticket) {
            if charges.tickets[place] == ticket {
                answers[answered] = charges.starts[place];
            }
            place += 1;
        } else {
            answered += 1;
        }
    }
    place
}
