// An opening, which reads no image: whatever the list holds, it becomes the image of the fresh station, if this has one feeder.
ghost use Rattle.std.specs.Prelude.{[], ◌∷◌};
ghost use Rattle.station.specs.Opened.{asked_of, asked_from};
ghost use Rattle.bus.specs.Images.{OpenedOver, Opens};

use blocks::contents::IMAGE;
use image::saving::save_back;
use refusals::Refusal;
use station::Station;
use station::open::Asked;

// What an opening tells: the bound D of the only feeder, and how many blocks of the image changed.
#[derive(Clone, Copy)]
struct Told {
    bound: u32,
    blocks: u32,
}

fn opened_over(image: &mut [u8], asked: Asked) -> Result<Told, Refusal>
    ensures { OpenedOver image.old (asked_of asked) result image.new }
{
    if image.len() != IMAGE {
        return Err(Refusal::ImageLength);
    }
    let opened = Station::open(asked);
    let bounds = opened.answer?.bounds;
    let blocks = save_back(&opened.station, image)?;
    Ok(Told {
        bound: bounds[0],
        blocks,
    })
}

#[unsafe(no_mangle)]
pub extern "C" fn togbeyis_open(
    image: &mut [u8],
    count: u32,
    site: u32,
    settings: &[u32],
    bound: &mut u32,
    blocks: &mut u32,
) -> u32
    ensures { Opens (blocks.old ∷ bound.old ∷ []) image.old (asked_from count site settings.now) result (blocks.new ∷ bound.new ∷ []) image.new }
{
    match opened_over(image, Asked::from_numbers(count, site, settings)) {
        Ok(told) => {
            *blocks = told.blocks;
            *bound = told.bound;
            0
        }
        Err(refusal) => u32::from(refusal),
    }
}
