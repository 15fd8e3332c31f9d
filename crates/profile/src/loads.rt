// A profile, and one more load in it.
ghost use Rattle.std.specs.Prelude.{◌≡◌, [], ◌+◌, ◌≤◌, ◌<◌, length};
ghost use Rattle.profile.specs.Shows.{Shows, CanSplit, Split, SplitBoth, CanAdd, LoadAdded};
ghost use Rattle.profile.specs.Loads.{PutIn, CanRaise, Raised};

use crate::steps::{Step, place};
use rules::OTHERS;
use std::marker::Model;
use std::ops::Range;

// What a charge draws wherever it starts: its rate on a line, for `time` minutes.
#[derive(Clone, Copy)]
pub struct Draw {
    pub line: u32,
    pub time: u32,
    pub rate: u32,
}

// The steps of what is drawn, in rising order of their minutes, with places for N of them.
#[derive(Drop)]
pub struct Profile<const N: usize> {
    list: [Step; N],
    count: usize,
}

// A contract sees the steps.
impl<const N: usize> Model for Profile<N> {
    ghost use Rattle.std.specs.Prelude.{List, ◌≤◌, take};
    ghost use Rattle.profile.specs.declared.steps.Step.{Step};

    ghost Value = { List Step };

    ghost view = { λ p. take p.count p.list };

    ghost invariant = { λ p. p.count ≤ N };
}

impl<const N: usize> Profile<N> {
    // No load: one step, which begins at the clock.
    pub fn new(clock: u32) -> Profile<N>
        requires { 1 ≤ N }
        ensures { Shows result clock [] }
    {
        let none = Step {
            minute: 0,
            one: 0,
            two: 0,
            three: 0,
            others: 0,
        };
        // Zeros first, in the profile itself: any other step N times, or a list moved into it, takes many times as long.
        let mut profile = Profile {
            list: [none; N],
            count: 1,
        };
        profile.list[0].minute = clock;
        profile
    }

    pub fn steps(&self) -> &[Step]
        ensures { result.now ≡ self.now }
    {
        &self.list[..self.count]
    }

    // The steps of another profile, whose list is not copied behind them.
    pub fn copy(&mut self, other: &Profile<N>)
        ensures { self.new ≡ other.now }
    {
        let count = other.count;
        self.list[..count].copy_from_slice(&other.list[..count]);
        self.count = count;
    }

    // Step i twice, the second time from minute t on.
    fn put_in(&mut self, i: usize, t: u32)
        requires { (i < length self.old) × (length self.old < N) }
        ensures { PutIn self.old self.new i t }
    {
        let next = i + 1;
        self.list.copy_within(i..self.count, next);
        self.list[next].minute = t;
        self.count += 1;
    }

    // The same levels, with minute t the beginning of a step. The answer: the place of that step.
    pub fn split(&mut self, t: u32) -> usize
        requires { CanSplit self.old N t }
        ensures { Split self.old self.new t result }
    {
        let i = place(self.steps(), t);
        if self.list[i].minute == t {
            return i;
        }
        self.put_in(i, t);
        i + 1
    }

    // The same levels, with both minutes the beginnings of steps: the steps from the one up to the other. Where both are new, each step
    // behind them moves once.
    fn split_both(&mut self, from: u32, until: u32) -> Range<usize>
        requires { CanSplit self.old N from × (length self.old + 2 ≤ N) × (from < until) }
        ensures { SplitBoth self.old self.new from until result }
    {
        let i = place(self.steps(), from);
        let j = place(self.steps(), until);
        if self.list[j].minute == until {
            if self.list[i].minute == from {
                return i..j;
            }
            self.put_in(i, from);
            return i + 1..j + 1;
        }
        if self.list[i].minute == from {
            self.put_in(j, until);
            return i..j + 1;
        }
        self.list.copy_within(j..self.count, j + 2);
        self.list.copy_within(i..j + 1, i + 1);
        self.list[i + 1].minute = from;
        self.list[j + 2].minute = until;
        self.count += 2;
        i + 1..j + 2
    }

    // The rate more on the line in these steps.
    pub fn raise(&mut self, steps: Range<usize>, line: u32, rate: u32)
        requires { CanRaise self.old steps line rate }
        ensures { Raised self.old steps line rate self.new }
    {
        // A slice first: no part of an array of N places is lent to a loop.
        let list = &mut self.list[..];
        for step in &mut list[steps] {
            *step = step.raised(line, rate);
        }
    }

    // One more load, on a line or, as line 4, of another feeder; on any other line it is left out, and so is what lies before the clock.
    pub fn add(&mut self, draw: Draw, start: u32)
        requires { CanAdd self.old N draw start }
        ensures { LoadAdded self.old self.new draw start }
    {
        let until = start + draw.time;
        let from = self.list[0].minute.max(start);
        if until <= from {
            return;
        }
        if !(1..=OTHERS).contains(&draw.line) {
            return;
        }
        let steps = self.split_both(from, until);
        self.raise(steps, draw.line, draw.rate);
    }
}
