// What a held charge draws.
ghost use Rattle.std.specs.Prelude.{◌≡◌, ◌<◌};
ghost use Rattle.rules.specs.Site.{places};
ghost use Rattle.rules.specs.Charge.{draw_of as draw_of_charge};
ghost use Rattle.charges.specs.Arrays.{charge_at};
ghost use Rattle.profile.specs.Shows.{draw_of};

use charges::Charges;
use profile::loads::Draw;

// What the charge at a place draws wherever it starts.
pub fn draw_at(charges: &Charges, place: usize) -> Draw
    requires { place < places }
    ensures { draw_of result ≡ draw_of_charge (charge_at charges.now place) }
{
    Draw {
        line: charges.lines[place],
        time: charges.active_times[place],
        rate: charges.rates[place],
    }
}
