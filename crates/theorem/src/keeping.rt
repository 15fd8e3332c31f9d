// A station saved and restored: the checker holds the theorem across restarts (specs/AcrossRestarts.antt) here to the contracts of the
// code.
ghost use Rattle.station.specs.View.{Valid, station_of, Alone};
ghost use Rattle.theorem.specs.Images.{MeetsSave, MeetsRestore, save_made, restore_made};

use refusals::Refusal;
use station::only::One;
use station::{Done, Station};

/// A station saved as an image, beside the previous one.
pub fn save(station: &Station, previous: &[u8], image: &mut [u8]) -> Result<u32, Refusal>
    requires { Valid station.now }
    ensures { MeetsSave station.now (save_made previous.now image.old image.new result) }
{
    image::saving::save(station, previous, image)
}

/// A station saved over its previous image.
pub fn save_back(station: &Station, image: &mut [u8]) -> Result<u32, Refusal>
    requires { Valid station.now }
    ensures { MeetsSave station.now (save_made image.old image.old image.new result) }
{
    image::saving::save_back(station, image)
}

/// The only feeder of a station saved over its previous image.
pub fn save_only(one: &One, image: &mut [u8]) -> Result<u32, Refusal>
    requires { Alone one.now }
    ensures { MeetsSave (station_of one.now) (save_made image.old image.old image.new result) }
{
    image::saving::save_only(one, image)
}

/// The station of an image, or the fresh one beside a refusal.
pub fn restore(image: &[u8]) -> Done<Result<(), Refusal>, Station>
    ensures { MeetsRestore (restore_made image.now result.answer result.station) }
{
    let restored = image::restoring::restore(image);
    Done {
        answer: restored.answer,
        station: Station::of_only(restored.station),
    }
}
