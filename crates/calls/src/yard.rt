// A station whose calls are methods: each takes it by value, and hands the next one back with the answer.
ghost use Rattle.std.specs.Prelude.{[]};
ghost use Rattle.rules.specs.Calls.{step, move as move_call, offer as offer_call, replan_latest as latest_call, replan_lines as lines_call, enquire as enquire_call, board as board_call, withdraw as withdraw_call};
ghost use Rattle.station.specs.View.{view, Valid};
ghost use Rattle.station.specs.Given.{Gives};
ghost use Rattle.ordering.specs.Ordered.{preview_of, commit_of};
ghost use Rattle.ordering.specs.Answers.{preview_answer, commit_answer};
ghost use Rattle.planning.specs.Answers.{plan_answer};
ghost use Rattle.site.specs.Answers.{move_answer, enquiry_answer, board_answer, withdrawal_answer};

use ordering::Order;
use ordering::commit::{Committed, commit};
use ordering::start::preview;
use planning::Planned;
use planning::offer::offer;
use planning::replan::{replan_latest, replan_lines};
use refusals::Refusal;
use site::board::board;
use site::clock::{Moved, move_clock};
use site::enquiry::{Enquiry, enquire};
use site::withdraw::withdraw;
use station::{Done, Station};

// A crate gives methods of its own only to its own types, so the station is wrapped.
#[derive(Clone, Copy)]
pub struct Yard {
    pub station: Station,
}

impl Yard {
    // "A preview changes nothing": the station stays as it is.
    pub fn preview(self, order: Order) -> Done<Result<u32, Refusal>, Yard>
        requires { Valid self.station }
        ensures { Gives (step (view self.station) (preview_of order)) (preview_answer result.answer) result.station.station [] }
    {
        let answer = preview(&self.station, order);
        Done {
            answer,
            station: self,
        }
    }

    // The start that the customer was shown is compared with what a preview would show now.
    pub fn commit(mut self, order: Order, shown: u32) -> Done<Result<Committed, Refusal>, Yard>
        requires { Valid self.station }
        ensures { Gives (step (view self.station) (commit_of order shown)) (commit_answer result.answer) result.station.station [] }
    {
        let answer = commit(&mut self.station, order, shown);
        Done {
            answer,
            station: self,
        }
    }

    // Writes a ticket and a start of each charge that the clock passes to the front of the report.
    pub fn move_clock(
        mut self,
        target: u32,
        report: &mut [u32],
    ) -> Done<Result<Moved, Refusal>, Yard>
        requires { Valid self.station }
        ensures { Gives (step (view self.station) (move_call target report.old)) (move_answer result.answer) result.station.station report.new }
    {
        let answer = move_clock(&mut self.station, target, report);
        Done {
            answer,
            station: self,
        }
    }

    pub fn offer(mut self, feeder: u32, starts: &[u32]) -> Done<Result<Planned, Refusal>, Yard>
        requires { Valid self.station }
        ensures { Gives (step (view self.station) (offer_call feeder starts.now)) (plan_answer result.answer) result.station.station starts.now }
    {
        let answer = offer(&mut self.station, feeder, starts);
        Done {
            answer,
            station: self,
        }
    }

    pub fn replan_latest(mut self, feeder: u32) -> Done<Result<Planned, Refusal>, Yard>
        requires { Valid self.station }
        ensures { Gives (step (view self.station) (latest_call feeder)) (plan_answer result.answer) result.station.station [] }
    {
        let answer = replan_latest(&mut self.station, feeder);
        Done {
            answer,
            station: self,
        }
    }

    pub fn replan_lines(
        mut self,
        feeder: u32,
        allowance: u32,
    ) -> Done<Result<Planned, Refusal>, Yard>
        requires { Valid self.station }
        ensures { Gives (step (view self.station) (lines_call feeder allowance)) (plan_answer result.answer) result.station.station [] }
    {
        let answer = replan_lines(&mut self.station, feeder, allowance);
        Done {
            answer,
            station: self,
        }
    }

    pub fn enquire(self, ticket: u32) -> Done<Enquiry, Yard>
        requires { Valid self.station }
        ensures { Gives (step (view self.station) (enquire_call ticket)) (enquiry_answer result.answer) result.station.station [] }
    {
        let answer = enquire(&self.station, ticket);
        Done {
            answer,
            station: self,
        }
    }

    // Writes the start of each ticket that is asked for to the front of the answers.
    pub fn board(self, asked: &[u32], answers: &mut [u32]) -> Done<Result<usize, Refusal>, Yard>
        requires { Valid self.station }
        ensures { Gives (step (view self.station) (board_call asked.now answers.old)) (board_answer result.answer) result.station.station answers.new }
    {
        let answer = board(&self.station, asked, answers);
        Done {
            answer,
            station: self,
        }
    }

    pub fn withdraw(mut self, ticket: u32) -> Done<Result<(), Refusal>, Yard>
        requires { Valid self.station }
        ensures { Gives (step (view self.station) (withdraw_call ticket)) (withdrawal_answer result.answer) result.station.station [] }
    {
        let answer = withdraw(&mut self.station, ticket);
        Done {
            answer,
            station: self,
        }
    }
}
