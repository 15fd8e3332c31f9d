// Any call of a station that stands, given as a value, with the lists lent beside it.
#![tactic(auto)]

pub mod yard;

ghost use Rattle.std.specs.Prelude.{◌≡◌};
ghost use Rattle.std.specs.Result.{ForOk};
ghost use Rattle.station.specs.View.{view, Valid};
ghost use Rattle.site.specs.Answers.{enquiry_answer};
ghost use Rattle.calls.specs.Applied.{answer_of, Applies, HandedOn};

use ordering::Order;
use ordering::commit::{Committed, commit};
use ordering::start::preview;
use planning::Planned;
use planning::offer::offer;
use planning::replan::{replan_latest, replan_lines};
use refusals::Refusal;
use site::board::board;
use site::clock::{Moved, move_clock};
use site::enquiry::{Enquiry, enquire};
use site::withdraw::withdraw;
use station::{Done, Station};
use yard::Yard;

#[derive(Clone, Copy)]
pub enum Call {
    Preview { order: Order },
    Commit { order: Order, shown: u32 },
    Move { target: u32 },
    Offer { feeder: u32 },
    ReplanLatest { feeder: u32 },
    ReplanLines { feeder: u32, allowance: u32 },
    Enquire { ticket: u32 },
    Board,
    Withdraw { ticket: u32 },
}

// What a call tells where it is not refused.
#[derive(Clone, Copy)]
pub enum Answer {
    Previewed(u32),
    Committed(Committed),
    Moved(Moved),
    Planned(Planned),
    Waiting { start: u32, rate: u32 },
    Charging { start: u32, end: u32, rate: u32 },
    Looked(usize),
    Withdrawn,
}

// What an enquiry tells, taken apart before a start can be read: a ticket that no held charge has is refused.
fn answer_enquiry(enquiry: Enquiry) -> Result<Answer, Refusal>
    ensures { answer_of result ≡ enquiry_answer enquiry }
{
    if let Enquiry::Waiting { start, rate } = enquiry {
        return Ok(Answer::Waiting { start, rate });
    }
    let Enquiry::Charging { start, end, rate } = enquiry else {
        return Err(Refusal::NotHeld);
    };
    Ok(Answer::Charging { start, end, rate })
}

// One call of any station, which is left as the call leaves it. An offer reads its starts from `numbers`, and a board its tickets; a
// clock move writes its report to `list`, and a board its answers. No other call touches either.
pub fn make(
    station: &mut Station,
    call: Call,
    numbers: &[u32],
    list: &mut [u32],
) -> Result<Answer, Refusal>
    requires { Valid station.old }
    ensures { Applies (view station.old) call numbers.now list.old list.new result station.new }
{
    match call {
        Call::Preview { order } => Ok(Answer::Previewed(preview(station, order)?)),
        Call::Commit { order, shown } => Ok(Answer::Committed(commit(station, order, shown)?)),
        Call::Move { target } => Ok(Answer::Moved(move_clock(station, target, list)?)),
        Call::Offer { feeder } => Ok(Answer::Planned(offer(station, feeder, numbers)?)),
        Call::ReplanLatest { feeder } => Ok(Answer::Planned(replan_latest(station, feeder)?)),
        Call::ReplanLines { feeder, allowance } => {
            Ok(Answer::Planned(replan_lines(station, feeder, allowance)?))
        }
        Call::Enquire { ticket } => answer_enquiry(enquire(station, ticket)),
        Call::Board => Ok(Answer::Looked(board(station, numbers, list)?)),
        Call::Withdraw { ticket } => {
            withdraw(station, ticket)?;
            Ok(Answer::Withdrawn)
        }
    }
}

// What a method of a yard gave, as any call gives it: `told` makes of its answer that of any call.
fn hand_on<A, F: FnOnce(A) -> Answer>(
    done: Done<Result<A, Refusal>, Yard>,
    told: F,
) -> Done<Result<Answer, Refusal>, Station>
    requires { ForOk done.answer (F.pre told) }
    ensures answer { HandedOn (F.post told) done.answer result.answer }
    ensures station { result.station ≡ done.station.station }
{
    Done {
        answer: done.answer.map(told),
        station: done.station.station,
    }
}

// The same by value, through the methods of a yard: the answer, and the station after the call.
pub fn apply(
    station: Station,
    call: Call,
    numbers: &[u32],
    list: &mut [u32],
) -> Done<Result<Answer, Refusal>, Station>
    requires { Valid station }
    ensures { Applies (view station) call numbers.now list.old list.new result.answer result.station }
{
    let yard = Yard { station };
    match call {
        Call::Preview { order } => hand_on(yard.preview(order), Answer::Previewed),
        Call::Commit { order, shown } => hand_on(yard.commit(order, shown), Answer::Committed),
        Call::Move { target } => hand_on(yard.move_clock(target, list), Answer::Moved),
        Call::Offer { feeder } => hand_on(yard.offer(feeder, numbers), Answer::Planned),
        Call::ReplanLatest { feeder } => hand_on(yard.replan_latest(feeder), Answer::Planned),
        Call::ReplanLines { feeder, allowance } => {
            hand_on(yard.replan_lines(feeder, allowance), Answer::Planned)
        }
        Call::Enquire { ticket } => {
            let Done { answer, station } = yard.enquire(ticket);
            Done {
                answer: answer_enquiry(answer),
                station: station.station,
            }
        }
        Call::Board => hand_on(yard.board(numbers, list), Answer::Looked),
        Call::Withdraw { ticket } => hand_on(yard.withdraw(ticket), |()| Answer::Withdrawn),
    }
}
