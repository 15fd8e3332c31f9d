// The places of a queue that are on a line.
ghost use Rattle.std.specs.Prelude.{◌≡◌};
ghost use Rattle.rules.specs.Basics.{keep};
ghost use Rattle.queues.specs.Queues.{is_on_line};

use charges::PLACES;
use charges::places::Places;

// Those on the line, in the same order.
pub fn on_line(queue: &Places, lines: &[u32; PLACES], line: u32) -> Places
    ensures { result ≡ keep (is_on_line lines.now line) queue.now }
{
    let mut places = Places::none();
    for place in queue.as_slice() {
        if lines[*place] == line {
            places.push(*place);
        }
    }
    places
}
