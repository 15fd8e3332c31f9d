// An opening, which reads no image: whatever the list holds, it becomes the image of the fresh station, if this has one feeder.
ghost use Rattle.std.specs.Prelude.{[], ◌∷◌};
ghost use Rattle.station.specs.Opened.{asked_from};
ghost use Rattle.bus.specs.Images.{Opens};

#[unsafe(no_mangle)]
pub extern "C" fn togbeyis_open(
    image: &mut [u8],
    count: u32,
    site: u32,
    settings: &[u32],
    bound: &mut u32,
    blocks: &mut u32,
) -> u32
    ensures { Opens (blocks.old ∷ bound.old ∷ []) image.old (asked_from count site settings.now) result (blocks.new ∷ bound.new ∷ []) image.new }
{
    bus::open::togbeyis_open(image, count, site, settings, bound, blocks)
}
