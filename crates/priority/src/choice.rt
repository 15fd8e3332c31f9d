// The charges left on a line: those that fit at a start, and the one that is taken.
ghost use Rattle.std.specs.Prelude.{◌≡◌, ◌*◌, ◌≤◌, ltb, length};
ghost use Rattle.charges.specs.Places.{Inside};
ghost use Rattle.priority.specs.Numbers.{InRange};
ghost use Rattle.priority.specs.Chosen.{run_for, Narrowed, FirstFitting, CanWeigh, WeighedAt, CanChoose, Choice};

use crate::crowd::{Crowd, Times, times_of};
use crate::weight::urgency;
use charges::Charges;

// How many minutes from a start on have room for a charge: of rate 1, and of rate 2.
#[derive(Clone, Copy)]
pub struct Runs {
    pub one: u32,
    pub two: u32,
}

impl Runs {
    fn of(self, rate: u32) -> u32
        ensures { result ≡ run_for self rate }
    {
        if rate == 1 { self.one } else { self.two }
    }
}

// The time of a charge and what it weighs.
#[derive(Clone, Copy)]
pub struct Weighed {
    pub time: u32,
    pub weight: u32,
}

impl Weighed {
    // Whether weight / time is larger than the other's: unrounded, by products. It is no `Ord`, since 1 / 2 and 2 / 4 weigh the same
    // for their times and are not equal.
    pub fn is_heavier(self, other: Weighed) -> bool
        ensures { result ≡ ltb (other.weight * self.time) (self.weight * other.time) }
    {
        let x = u64::from(other.weight) * u64::from(self.time);
        let y = u64::from(self.weight) * u64::from(other.time);
        x < y
    }
}

// The charges of a line that are left to place, by place, in the order of d − p, then ticket; with the crowd of the line, and the
// times of these, or of more that were left before.
#[derive(Clone, Copy)]
pub struct Left<'a> {
    pub charges: &'a Charges,
    pub places: &'a [usize],
    pub crowd: Crowd,
    pub times: Times,
}

impl<'a> Left<'a> {
    // The same with the times of these alone.
    pub fn narrowed(&self) -> Left<'a>
        requires { InRange self.now.charges.now self.now.places.now }
        ensures { Narrowed self.now result }
    {
        Left {
            times: times_of(self.charges, self.places),
            ..*self
        }
    }

    // The first of them, from the given one on, that is no longer than the run of minutes with room for its rate.
    pub fn fitting(&self, runs: Runs, from: usize) -> Option<usize>
        requires { Inside self.now.places.now × (from ≤ length self.now.places.now) }
        ensures { FirstFitting self.now runs from result }
    {
        (from..self.places.len()).find(|j| {
            let i = self.places[*j];
            self.charges.active_times[i] <= runs.of(self.charges.rates[i])
        })
    }

    // The charge at a place, at a start.
    fn weigh(&self, start: u32, place: usize) -> Weighed
        requires { CanWeigh self.now place }
        ensures { WeighedAt self.now start place result }
    {
        let time = self.charges.times[place];
        let weight = urgency(self.charges.dues[place], time, start, self.crowd);
        Weighed { time, weight }
    }

    // "among those that fit there takes the one with the largest weight/p, unrounded, then the smaller d − p, then the smaller
    // ticket"; none where none fits. Weights fall along the order: where the next one would not be heavier for its time even if
    // it were as short as the shortest, no later one is.
    pub fn choose(&self, start: u32, runs: Runs) -> Option<usize>
        requires { CanChoose self.now }
        ensures { Choice self.now start runs result }
    {
        let mut best = self.fitting(runs, 0)?;
        let mut taken = self.weigh(start, self.places[best]);
        let mut from = best + 1;
        while let Some(j) = self.fitting(runs, from) {
            let next = self.weigh(start, self.places[j]);
            let shortest = Weighed {
                time: self.times.shortest,
                weight: next.weight,
            };
            if !shortest.is_heavier(taken) {
                return Some(best);
            }
            if next.is_heavier(taken) {
                best = j;
                taken = next;
            }
            from = j + 1;
        }
        Some(best)
    }
}
