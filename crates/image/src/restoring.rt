// An image accepted, or refused with 20, 21 or 22.
ghost use Rattle.std.specs.Prelude.{◌≡◌, Err};
ghost use Rattle.rules.specs.Calls.{fresh, least};
ghost use Rattle.station.specs.View.{view, station_of, Alone};
ghost use Rattle.validity.specs.Settled.{Settled};
ghost use Rattle.image.specs.Answers.{is_from, Restores};

use blocks::contents::{CONTENTS, IMAGE, is_undamaged, take_blocks};
use records::reading::Records;
use records::writing::contents_of;
use refusals::Refusal;
use station::Done;
use station::only::One;
use validity::is_valid;

// Whether the contents are those of this feeder's station, and the station valid: "All else is zero" is found by writing them again.
fn is_of(contents: &[u8; CONTENTS], one: &One) -> bool
    requires { Settled one.now }
    ensures { result ≡ is_from contents.now (view (station_of one.now)) }
{
    is_valid(one) && *contents == contents_of(one)
}

// "Beside a refused restore stands the fresh station of 1, 100 and r = 0": "one feeder and W 720".
fn refused(refusal: Refusal) -> Done<Result<(), Refusal>, One>
    ensures { (result.answer ≡ Err refusal) × (view (station_of result.station) ≡ fresh least) × Alone result.station }
{
    Done {
        answer: Err(refusal),
        station: One::least(),
    }
}

// An image accepted or refused, and the only feeder of the station beside it. No whole station is made of it: an image is of one
// feeder, and a copy of the places of four costs more than most calls. Each refusal makes what is given back, and is not passed on
// by a `?`: out of a `Result` the feeder would be copied twice more.
pub fn restore(image: &[u8]) -> Done<Result<(), Refusal>, One>
    ensures { Restores image.now result.answer result.station }
{
    let Some(image) = image.as_array::<IMAGE>() else {
        return refused(Refusal::ImageLength);
    };
    if !is_undamaged(image) {
        return refused(Refusal::ImageDamaged);
    }
    let mut contents = [0; CONTENTS];
    take_blocks(image, &mut contents);
    let Some(records) = Records::of(&contents) else {
        return refused(Refusal::ImageInvalid);
    };
    let one = records.read();
    if !is_of(&contents, &one) {
        return refused(Refusal::ImageInvalid);
    }
    Done {
        answer: Ok(()),
        station: one,
    }
}
