// A station saved as an image.
ghost use Rattle.std.specs.Prelude.{Ok};
ghost use Rattle.charges.specs.Arrays.{Columns};
ghost use Rattle.station.specs.View.{view, Valid, station_of, Alone};
ghost use Rattle.image.specs.Answers.{Saves};

use blocks::comparing::differing_blocks;
use blocks::contents::{IMAGE, put_blocks};
use records::writing::contents_of;
use refusals::Refusal;
use station::Station;
use station::only::One;

// The image of the only feeder of a station, and how many of its blocks differ from the previous image.
#[tactic(auto, using(crate::proofs::SavedImages::written))]
fn write(one: &One, previous: &[u8; IMAGE], image: &mut [u8; IMAGE]) -> u32
    requires { Columns one.now.feeder.charges }
    ensures { Saves (view (station_of one.now)) previous.now image.old image.new (Ok result) }
{
    put_blocks(&contents_of(one), image);
    differing_blocks(previous, image)
}

// A station over an image that is lent beside the previous one: refused with 20 for the length of either, and with 22 for several feeders.
pub fn save(station: &Station, previous: &[u8], image: &mut [u8]) -> Result<u32, Refusal>
    requires { Valid station.now }
    ensures { Saves (view station.now) previous.now image.old image.new result }
{
    let previous = previous.as_array::<IMAGE>().ok_or(Refusal::ImageLength)?;
    let image = image.as_mut_array::<IMAGE>().ok_or(Refusal::ImageLength)?;
    let one = station.only().ok_or(Refusal::ImageInvalid)?;
    Ok(write(&one, previous, image))
}

// A station over its previous image.
pub fn save_back(station: &Station, image: &mut [u8]) -> Result<u32, Refusal>
    requires { Valid station.now }
    ensures { Saves (view station.now) image.old image.old image.new result }
{
    let before = *image.as_array::<IMAGE>().ok_or(Refusal::ImageLength)?;
    save(station, &before, image)
}

// The only feeder of a station over its previous image, which is never refused for several.
pub fn save_only(one: &One, image: &mut [u8]) -> Result<u32, Refusal>
    requires { Alone one.now }
    ensures { Saves (view (station_of one.now)) image.old image.old image.new result }
{
    let image = image.as_mut_array::<IMAGE>().ok_or(Refusal::ImageLength)?;
    let before = *image;
    Ok(write(one, &before, image))
}
