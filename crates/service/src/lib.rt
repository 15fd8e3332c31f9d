// One call over an image: the station is restored from it, the call is made to it, and the next station is saved over the image.
// A refusal, whether of the restore or of the call, leaves the image and the lent lists as they are.
#![tactic(auto)]

pub mod numbers;

ghost use Rattle.std.specs.Prelude.{◌≡◌, [], Ok};
ghost use Rattle.calls.specs.Applied.{call_of, none, lends, list_after, ListStays};
ghost use Rattle.station.specs.View.{Alone};
ghost use Rattle.image.specs.Answers.{Restores};
ghost use Rattle.service.specs.Named.{Serves};

use calls::{Call, make};
use image::restoring::restore;
use image::saving::save_back;
use numbers::Numbers;
use refusals::Refusal;
use station::Station;
use station::only::One;

// The call to the only feeder of a station, and the station saved over its image. Not inlined, since room for a whole station is cleared
// at each call of the function it stands in, and a refused image needs none.
#[inline(never)]
fn serve_restored(
    one: &One,
    image: &mut [u8],
    call: Call,
    numbers: &[u32],
    list: &mut [u32],
) -> Result<Numbers, Refusal>
    requires { Alone one.now }
    ensures serves { Restores image.old (Ok tt) one.now → Serves image.old (call_of call numbers.now list.old) result image.new (list_after call numbers.now list.new) }
    ensures list_stays { ListStays (lends call) list.old list.new }
{
    let mut station = Station::of_only(*one);
    let answer = make(&mut station, call, numbers, list)?;
    let blocks = save_back(&station, image)?;
    Ok(Numbers {
        blocks,
        ..Numbers::from(answer)
    })
}

// The lists are those of `calls::make`: one to read from, and one to write to.
pub fn serve(
    image: &mut [u8],
    call: Call,
    numbers: &[u32],
    list: &mut [u32],
) -> Result<Numbers, Refusal>
    ensures serves { Serves image.old (call_of call numbers.now list.old) result image.new (list_after call numbers.now list.new) }
    ensures list_stays { ListStays (lends call) list.old list.new }
{
    let restored = restore(image);
    restored.answer?;
    serve_restored(&restored.station, image, call, numbers, list)
}

// A call that takes no list.
pub fn serve_alone(image: &mut [u8], call: Call) -> Result<Numbers, Refusal>
    requires { lends call ≡ none }
    ensures { Serves image.old (call_of call [] []) result image.new [] }
{
    serve(image, call, &[], &mut [])
}
