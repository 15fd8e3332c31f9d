// An opening: a fresh station for its settings.
ghost use Rattle.std.specs.Prelude.{◌≡◌, length, take, get_or, map, ◌*◌, ◌<◌};
ghost use Rattle.rules.specs.Basics.{first_of};
ghost use Rattle.rules.specs.Calls.{opened, open_refusals, opening};
ghost use Rattle.refusals.specs.Refusals.{refusal_in};
ghost use Rattle.station.specs.Opened.{settings_of, asked_of, settings_from, asked_from, feeder_refusals, fresh_feeder, fresh_at, fresh_of, BoundOf, opened_of, bounds_of, FreshLeast, Opens};

use crate::bounds::Opened;
use crate::{Done, FEEDERS, Feeder, Station};
use charges::Charges;
use profile::balance::nearest_hundreds;
use refusals::Refusal;

// What an opening is given for a feeder: the limit N, the percentage c and r. What a feeder past the count is made of is 0, 0 and 0.
#[derive(Clone, Copy, Default)]
pub struct Settings {
    pub limit: u32,
    pub percent: u32,
    pub tail: u32,
}

// What an opening asks for: how many feeders, the site's limit W, and the settings of each; those past the count are not read.
#[derive(Clone, Copy)]
pub struct Asked {
    pub count: u32,
    pub site: u32,
    pub settings: [Settings; FEEDERS],
}

// The settings of the least station: 1, 100, r 0, one feeder and W 720.
pub(crate) const LEAST: Asked = Asked {
    count: 1,
    site: 720,
    settings: [Settings {
        limit: 1,
        percent: 100,
        tail: 0,
    }; FEEDERS],
};

// The number at a place; 0 where there is none.
pub fn number_or_zero(numbers: &[u32], i: usize) -> u32
    ensures { result ≡ get_or numbers.now i 0 }
{
    numbers.get(i).copied().unwrap_or(0)
}

impl Settings {
    // Those whose limit stands at a place.
    fn from_numbers(numbers: &[u32], i: usize) -> Settings
        requires { i < 12 }
        ensures { settings_of result ≡ settings_from numbers.now i }
    {
        Settings {
            limit: number_or_zero(numbers, i),
            percent: number_or_zero(numbers, i + 1),
            tail: number_or_zero(numbers, i + 2),
        }
    }

    // "D = c N / 100 to the nearest": the largest bound where the product is no number of 32 bits.
    pub fn bound(&self) -> u32
        ensures { BoundOf self.now result }
    {
        nearest_hundreds(self.percent.saturating_mul(self.limit))
    }

    // A feeder of these settings that holds nothing.
    pub(crate) fn fresh(&self) -> Feeder
        requires { self.now.percent * self.now.limit < 4294967296 }
        ensures { result ≡ fresh_feeder (settings_of self.now) }
    {
        Feeder {
            limit: self.limit,
            percent: self.percent,
            bound: self.bound(),
            tail: self.tail,
            charges: Charges::none(),
        }
    }
}

impl Asked {
    // Three numbers for each feeder. "Feeders that are not given count as 0 0 0."
    pub fn from_numbers(count: u32, site: u32, numbers: &[u32]) -> Asked
        ensures { asked_of result ≡ asked_from count site numbers.now }
    {
        Asked {
            count,
            site,
            settings: std::array::from_fn(|place| Settings::from_numbers(numbers, 3 * place)),
        }
    }
}

// "Refusals 1, 2, 3 and 19 are each given if any feeder up to the count meets the condition": the first of them.
fn feeders_refusal(settings: &[Settings]) -> Result<(), Refusal>
    ensures { refusal_in result ≡ first_of (feeder_refusals (map settings_of settings.now)) }
{
    if settings.iter().any(|one| !(1..=60).contains(&one.limit)) {
        return Err(Refusal::LimitOutOfRange);
    }
    if settings.iter().any(|one| 100 < one.percent) {
        return Err(Refusal::PercentAbove100);
    }
    if settings.iter().any(|one| one.bound() == 0) {
        return Err(Refusal::BoundZero);
    }
    if settings.iter().any(|one| 5 < one.tail) {
        return Err(Refusal::TailAboveFive);
    }
    Ok(())
}

// The first refusal of an opening.
#[tactic(auto, using(crate::proofs::OpenRefusals::site_left))]
fn open_refusal(asked: &Asked) -> Result<(), Refusal>
    ensures { refusal_in result ≡ first_of (open_refusals (asked_of asked.now)) }
{
    if !(1..=4).contains(&asked.count) {
        return Err(Refusal::FeederCountOutOfRange);
    }
    feeders_refusal(&asked.settings[..asked.count as usize])?;
    if !(1..=720).contains(&asked.site) {
        return Err(Refusal::SiteLimitOutOfRange);
    }
    Ok(())
}

impl Asked {
    // The feeder at a place of a fresh station, without settings past the count.
    fn fresh_at(&self, place: usize) -> Feeder
        requires { (first_of (open_refusals (asked_of self.now)) ≡ 0) × (place < 4) }
        ensures { result ≡ fresh_at self.now place }
    {
        if place < self.count as usize {
            self.settings[place].fresh()
        } else {
            Settings::default().fresh()
        }
    }

    // "A fresh station: clock 0, next ticket 1, no charges."
    fn fresh(&self) -> Station
        requires { first_of (open_refusals (asked_of self.now)) ≡ 0 }
        ensures { result ≡ fresh_of self.now }
    {
        Station {
            count: self.count as usize,
            site: self.site,
            clock: 0,
            next: 1,
            feeders: [
                self.fresh_at(0),
                self.fresh_at(1),
                self.fresh_at(2),
                self.fresh_at(3),
            ],
        }
    }
}

impl Station {
    // "Beside a refused opening stands the fresh station of 1, 100", "r is 0", and "one feeder and W 720": a session begins with it too.
    pub fn least() -> Station
        ensures { FreshLeast result }
    {
        LEAST.fresh()
    }

    pub fn open(asked: Asked) -> Done<Result<Opened, Refusal>, Station>
        ensures { Opens (opening (asked_of asked)) result.answer result.station }
    {
        match open_refusal(&asked) {
            Ok(()) => {
                let station = asked.fresh();
                Done {
                    answer: Ok(station.opened()),
                    station,
                }
            }
            Err(refusal) => Done {
                answer: Err(refusal),
                station: Station::least(),
            },
        }
    }
}
