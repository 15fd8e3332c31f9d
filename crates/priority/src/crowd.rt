// The charges of a line, taken together: all of them when the round begins, and those that are left.
ghost use Rattle.std.specs.Prelude.{◌≡◌};
ghost use Rattle.priority.specs.Numbers.{InRange};
ghost use Rattle.priority.specs.Crowds.{widened, CrowdOf, Joined, TimesOf};

use charges::Charges;

// "n and P the number and summed p of the line's waiting charges when the round begins"
#[derive(Clone, Copy)]
pub struct Crowd {
    pub number: u32,
    pub total: u32,
}

// The shortest and the longest time of one or more charges.
#[derive(Clone, Copy)]
pub struct Span {
    pub shortest: u32,
    pub longest: u32,
}

// Of the charges that are left: the active times of rate 1 and of rate 2, if any has the rate, and a charging time that none of
// them is below.
#[derive(Clone, Copy)]
pub struct Times {
    pub one: Option<Span>,
    pub two: Option<Span>,
    pub shortest: u32,
}

// The span with one more time.
fn widened(span: Option<Span>, time: u32) -> Span
    ensures { result ≡ widened span time }
{
    match span {
        Some(span) => Span {
            shortest: span.shortest.min(time),
            longest: span.longest.max(time),
        },
        None => Span {
            shortest: time,
            longest: time,
        },
    }
}

impl Times {
    // One more charge.
    fn joined(self, time: u32, active_time: u32, rate: u32) -> Times
        ensures { Joined self time active_time rate result }
    {
        let mut next = self;
        next.shortest = time.min(self.shortest);
        if rate == 1 {
            next.one = Some(widened(self.one, active_time));
        } else {
            next.two = Some(widened(self.two, active_time));
        }
        next
    }
}

// Those of a line that wait, when the round begins.
pub fn crowd_of(charges: &Charges, waiting: &[usize]) -> Crowd
    requires { InRange charges.now waiting.now }
    ensures { CrowdOf charges.now waiting.now result }
{
    Crowd {
        number: waiting.len() as u32,
        total: waiting.iter().map(|place| charges.times[*place]).sum(),
    }
}

// The times of those that are left.
pub fn times_of(charges: &Charges, left: &[usize]) -> Times
    requires { InRange charges.now left.now }
    ensures { TimesOf charges.now left.now result }
{
    let mut times = Times {
        one: None,
        two: None,
        shortest: u32::MAX,
    };
    for place in left {
        let i = *place;
        times = times.joined(charges.times[i], charges.active_times[i], charges.rates[i]);
    }
    times
}
