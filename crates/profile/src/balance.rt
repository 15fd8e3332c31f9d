// Limit and balance, step by step; the rounding that makes the bound; and the line with the largest count.
ghost use Rattle.std.specs.Prelude.{◌≡◌, ◌≤◌, IfSome, IfNone};
ghost use Rattle.rules.specs.Calls.{nearest_hundreds};
ghost use Rattle.rules.specs.Replan.{largest_line};
ghost use Rattle.rules.specs.Load.{IsColumn};
ghost use Rattle.profile.specs.Steps.{counts_of};
ghost use Rattle.profile.specs.Shows.{level_of, first_minute, Formed};
ghost use Rattle.profile.specs.Minutes.{Passes, FirstFails};
ghost use Rattle.profile.specs.Balance.{balanced_in, Unbalanced, LimitKept};

use crate::steps::{Step, place};

// product / 100 "rounded to the nearest whole number, an exact half to the even one".
pub fn nearest_hundreds(product: u32) -> u32
    ensures { result ≡ nearest_hundreds product }
{
    let whole = product / 100;
    let rest = product % 100;
    if 50 < rest {
        return whole + 1;
    }
    if rest == 50 {
        return whole + whole % 2;
    }
    whole
}

// The count of a line in a minute.
pub fn level(steps: &[Step], line: u32, t: u32) -> u32
    requires { Formed steps.now × IsColumn line × (first_minute steps.now ≤ t) }
    ensures { result ≡ level_of steps.now line t }
{
    let i = place(steps, t);
    steps[i].count(line)
}

/// The first minute in which two lines differ by more than the bound, if there is one: minute by minute, and in each line 1 against 2, 2
/// against 3, 3 against 1. A step stands for the minutes up to the next one, whose counts are the same.
pub fn first_unbalanced(steps: &[Step], bound: u32) -> Option<u32>
    requires { Formed steps.now }
    ensures first { IfSome result (λ t. FirstFails (balanced_in steps.now bound) (first_minute steps.now) t) }
    ensures none { IfNone result (Passes (balanced_in steps.now bound) (first_minute steps.now)) }
    ensures rule { Unbalanced steps.now bound result }
{
    'minutes: {
        for step in steps {
            for line in 1..=3 {
                let count = step.count(line);
                let other = step.count(line % 3 + 1);
                if bound < count.abs_diff(other) {
                    break 'minutes Some(step.minute);
                }
            }
        }
        None
    }
}

// Whether no count is above the limit, nor all counts together above the site's.
pub fn within_limits(steps: &[Step], limit: u32, site: u32) -> bool
    requires { Formed steps.now }
    ensures { LimitKept steps.now limit site result }
{
    steps.iter().all(|step| step.is_within(limit, site))
}

// The line with the largest count, the lowest among equals.
pub fn largest_line(step: Step) -> u32
    ensures { result ≡ largest_line (counts_of step) }
{
    let count = step.largest();
    if step.one == count {
        1
    } else if step.two == count {
        2
    } else {
        3
    }
}
