// The waiting charges placed under the caps, line by line: one round of replan by lines.
ghost use Rattle.std.specs.Prelude.{◌-◌};
ghost use Rattle.rules.specs.Load.{IsLine};
ghost use Rattle.lines.specs.Lines.{CanPlace, LinesUnder, ShowsStanding};

use crate::next::Room;
use charges::places::Places;
use charges::{Charges, PLACES};
use planner::Beside;
use planner::draws::draw_at;
use priority::choice::Left;
use priority::crowd::{crowd_of, times_of};
use profile::loads::Profile;
use queues::line::on_line;
use search::caps::LineCaps;

// What a round has before it: what the plan stands beside, the charges held, the places of the waiting ones by latest start, and the caps.
#[derive(Clone, Copy)]
pub struct Task<'a> {
    pub beside: Beside<'a>,
    pub charges: &'a Charges,
    pub queue: &'a Places,
    pub caps: &'a LineCaps,
}

// The waiting charges of one more line, after those of the lines before it: the start of each comes to its place.
pub fn place_line<const N: usize>(
    profile: &mut Profile<N>,
    by_place: &mut [u32; PLACES],
    task: &Task<'_>,
    line: u32,
)
    requires { CanPlace N task.now × IsLine line × LinesUnder task.now (line - 1) profile.old by_place.old }
    ensures { LinesUnder task.now line profile.new by_place.new }
{
    let charges = task.charges;
    let mut places = on_line(task.queue, &charges.lines, line);
    let waiting = places.as_slice();
    let crowd = crowd_of(charges, waiting);
    let mut times = times_of(charges, waiting);
    let mut from = task.beside.clock;
    loop {
        let room = Room {
            steps: profile.steps(),
            caps: task.caps,
            line,
        };
        let left = Left {
            charges,
            places: places.as_slice(),
            crowd,
            times,
        };
        let Some(next) = room.next_charge(&left, from) else {
            return;
        };
        let place = left.places[next.position];
        let draw = draw_at(charges, place);
        from = next.start;
        times = next.times;
        profile.add(draw, from);
        by_place[place] = from;
        places.remove(next.position);
    }
}

// Every waiting charge, line by line, in a profile that shows what stands: the starts by place. No cap is below a rate, nor is the
// site's limit, so there always is a start.
pub fn place_lines<const N: usize>(profile: &mut Profile<N>, task: &Task<'_>) -> [u32; PLACES]
    requires { CanPlace N task.now × ShowsStanding task.now profile.old }
    ensures { LinesUnder task.now 3 profile.new result }
{
    let mut by_place = [0; PLACES];
    for line in 1..=3 {
        place_line(profile, &mut by_place, task, line);
    }
    by_place
}
