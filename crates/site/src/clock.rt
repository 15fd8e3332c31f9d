// A clock move: reports the charges that the clock passes, then drops the finished ones.
ghost use Rattle.std.specs.Prelude.{◌≡◌, ◌-◌, ◌*◌, ◌≤◌, length};
ghost use Rattle.rules.specs.Basics.{first_of};
ghost use Rattle.rules.specs.Site.{site_charges};
ghost use Rattle.rules.specs.Calls.{reported as reported_by, pairs, written, moved_to, move as move_call, step};
ghost use Rattle.refusals.specs.Refusals.{refusal_in};
ghost use Rattle.station.specs.View.{view, Formed, Valid};
ghost use Rattle.station.specs.Given.{Gives};
ghost use Rattle.site.specs.Answers.{move_rows, move_answer};

use charges::PLACES;
use queues::by_start;
use queues::reports::report;
use refusals::Refusal;
use station::Station;

// A report has a ticket and a start for each charge that a feeder may hold.
const REPORTED: usize = 2 * PLACES;

// How many charges were reported, and how many of them and of others were dropped.
#[derive(Clone, Copy)]
pub struct Moved {
    pub reported: usize,
    pub dropped: usize,
}

// The first refusal of a clock move.
fn move_refusal(station: &Station, target: u32, list: &[u32]) -> Result<(), Refusal>
    requires { station.now.count ≤ 4 }
    ensures { refusal_in result ≡ first_of (move_rows station.now.count station.now.clock target list.now) }
{
    if 1000000 < target {
        return Err(Refusal::TargetTooLate);
    }
    if list.len() < REPORTED * station.count {
        return Err(Refusal::ReportTooShort);
    }
    if target < station.clock {
        return Err(Refusal::TargetBelowClock);
    }
    Ok(())
}

// The report of all feeders, from the last one to the first. The answer: how many charges were reported.
fn report_feeders(station: &Station, target: u32, list: &mut [u32]) -> usize
    requires { Valid station.now × (360 * station.now.count ≤ length list.old) }
    ensures { (result ≡ length (reported_by station.now.clock target (site_charges (view station.now)))) × (list.new ≡ written (pairs (reported_by station.now.clock target (site_charges (view station.now)))) list.old) }
{
    let mut reported = 0;
    for feeder in station.feeders().iter().rev() {
        let passed = by_start(&feeder.charges, station.clock, target);
        report(&feeder.charges, &passed, list, reported);
        reported += passed.len();
    }
    reported
}

// How many charges all feeders hold.
fn held(station: &Station) -> usize
    requires { Formed station.now }
    ensures { result ≡ length (site_charges (view station.now)) }
{
    let feeders = station.feeders().iter();
    feeders.map(|feeder| feeder.charges.held).sum()
}

// Writes a ticket and a start of each charge that the clock passes to the front of the report.
pub fn move_clock(station: &mut Station, target: u32, report: &mut [u32]) -> Result<Moved, Refusal>
    requires { Valid station.old }
    ensures { Gives (step (view station.old) (move_call target report.old)) (move_answer result) station.new report.new }
{
    move_refusal(station, target, report)?;
    let reported = report_feeders(station, target, report);
    let before = held(station);
    station.move_to(target);
    let dropped = before - held(station);
    Ok(Moved { reported, dropped })
}
