// The next charge of a line: the smallest start at which one of those left fits, and the one that is taken there.
ghost use Rattle.rules.specs.Load.{IsLine};
ghost use Rattle.lines.specs.OnLine.{line_prop};

use priority::choice::{Left, Runs};
use priority::crowd::{Span, Times};
use profile::loads::Draw;
use profile::steps::Step;
use search::caps::LineCaps;
use search::fit::{next_under, run_under};

// The start of the next charge, its position among those left, and the times by which it was chosen.
#[derive(Clone, Copy)]
pub struct Next {
    pub start: u32,
    pub position: usize,
    pub times: Times,
}

// Where a line has room: the steps of a profile, under the line's cap and the site's limit.
#[derive(Clone, Copy)]
pub struct Room<'a> {
    pub steps: &'a [Step],
    pub caps: &'a LineCaps,
    pub line: u32,
    pub ghost on_line: { IsLine line } by { line_prop line },
}

impl Room<'_> {
    ghost use Rattle.std.specs.Prelude.{◌≡◌};
    ghost use Rattle.rules.specs.Basics.{run_of};
    ghost use Rattle.search.specs.Caps.{CanRun};
    ghost use Rattle.priority.specs.Crowds.{shortest_of, longest_of};
    ghost use Rattle.lines.specs.Next.{room_for, CanChooseAt, ChosenAt, CanSeek, StartFor, NextStart, CanNext, NextIs};

    // How many minutes from a start on have room for charges of the rate, up to the longest time of those left; 0 where no charge
    // has it.
    fn run_for(&self, rate: u32, span: Option<Span>, start: u32) -> u32
        requires { CanRun self.now.steps.now (longest_of span) start }
        ensures { result ≡ run_of (room_for self.now rate) (longest_of span) start }
    {
        let Some(span) = span else {
            return 0;
        };
        let draw = Draw {
            line: self.line,
            time: span.longest,
            rate,
        };
        run_under(self.steps, self.caps, draw, start)
    }

    // The position of the charge that is taken at the start, if one of those left fits there.
    fn chosen_at(&self, left: &Left<'_>, start: u32) -> Option<usize>
        requires { CanChooseAt self.now left.now start }
        ensures { ChosenAt self.now left.now start result }
    {
        let one = self.run_for(1, left.times.one, start);
        let two = self.run_for(2, left.times.two, start);
        left.choose(start, Runs { one, two })
    }

    // The smallest start, not below `from`, of the shortest of those left that have the rate; none where no charge has it.
    fn start_for(&self, rate: u32, span: Option<Span>, from: u32) -> Option<u32>
        requires { CanSeek self.now rate span from }
        ensures { StartFor self.now rate (shortest_of span) from result }
    {
        let time = span?.shortest;
        let draw = Draw {
            line: self.line,
            time,
            rate,
        };
        Some(next_under(self.steps, self.caps, draw, from))
    }

    // The smaller one of the smallest starts for the two rates.
    fn next_start(&self, times: Times, from: u32) -> Option<u32>
        requires { CanSeek self.now 1 times.one from × CanSeek self.now 2 times.two from }
        ensures { NextStart self.now times from result }
    {
        let one = self.start_for(1, times.one, from);
        let two = self.start_for(2, times.two, from);
        one.into_iter().chain(two).min()
    }

    // "finds the smallest start at which any unplaced charge fits, and among those that fit there takes the one .."; it is not
    // below `from`, the start of the last one. None where no charge is left.
    pub fn next_charge(&self, left: &Left<'_>, from: u32) -> Option<Next>
        requires { CanNext self.now left.now from }
        ensures { NextIs self.now left.now from result }
    {
        if left.places.is_empty() {
            return None;
        }
        if let Some(position) = self.chosen_at(left, from) {
            return Some(Next {
                start: from,
                position,
                times: left.times,
            });
        }
        let left = left.narrowed();
        let start = self.next_start(left.times, from)?;
        let position = self.chosen_at(&left, start)?;
        Some(Next {
            start,
            position,
            times: left.times,
        })
    }
}
