// The steps of a profile: what each has, and in which one a minute lies.
ghost use Rattle.std.specs.Prelude.{◌≡◌, ◌&&◌, ◌+◌, ◌^◌, ◌<◌, ◌≤◌, max, min};
ghost use Rattle.rules.specs.Load.{whole_of, limited, within_site, balanced};
ghost use Rattle.profile.specs.Steps.{In, counts_of, RaisedOn};
ghost use Rattle.profile.specs.Shows.{first_minute, Formed};

// A step begins in a minute, and has from there on, up to the next one, the count of each line, and as a fourth what the other feeders draw.
#[derive(Clone, Copy)]
pub struct Step {
    pub minute: u32,
    pub one: u32,
    pub two: u32,
    pub three: u32,
    pub others: u32,
}

impl Step {
    // The count of a line; what is no line stands for the other feeders.
    pub fn count(self, line: u32) -> u32
        ensures { result ≡ counts_of self line }
    {
        match line {
            1 => self.one,
            2 => self.two,
            3 => self.three,
            _ => self.others,
        }
    }

    // All that is drawn.
    pub fn whole(self) -> u64
        ensures { (result ≡ whole_of (counts_of self)) × (result < 2 ^ 34) }
    {
        u64::from(self.one)
            + (u64::from(self.two) + (u64::from(self.three) + u64::from(self.others)))
    }

    // The largest count of a line.
    pub fn largest(self) -> u32
        ensures { result ≡ max self.one (max self.two self.three) }
    {
        self.one.max(self.two.max(self.three))
    }

    // The smallest count of a line.
    pub fn smallest(self) -> u32
        ensures { result ≡ min self.one (min self.two self.three) }
    {
        self.one.min(self.two.min(self.three))
    }

    // Whether no line is above the limit, nor all together above the site's.
    pub fn is_within(self, limit: u32, site: u32) -> bool
        ensures { result ≡ (limited limit (counts_of self) && within_site site (counts_of self)) }
    {
        self.largest() <= limit && self.whole() <= u64::from(site)
    }

    // Whether each two lines differ by at most the bound.
    pub fn is_balanced(self, bound: u32) -> bool
        ensures { result ≡ balanced bound (counts_of self) }
    {
        self.largest() - self.smallest() <= bound
    }

    // With so much more on a line; what is no line stands, as in `count`, for the other feeders.
    pub fn raised(self, line: u32, rate: u32) -> Step
        requires { counts_of self line + rate < 2 ^ 32 }
        ensures { RaisedOn self line rate result }
    {
        let count = self.count(line) + rate;
        match line {
            1 => Step { one: count, ..self },
            2 => Step { two: count, ..self },
            3 => Step {
                three: count,
                ..self
            },
            _ => Step {
                others: count,
                ..self
            },
        }
    }
}

// The last step that begins at or before t.
pub fn place(steps: &[Step], t: u32) -> usize
    requires { Formed steps.now × (first_minute steps.now ≤ t) }
    ensures { In steps.now result t }
{
    steps.partition_point(|step| step.minute <= t) - 1
}
