// An image by itself: tested, and saved to another list.
ghost use Rattle.std.specs.Prelude.{◌≡◌};
ghost use Rattle.layout.specs.Reading.{restoring};
ghost use Rattle.bus.specs.Images.{Copies};

#[unsafe(no_mangle)]
pub extern "C" fn togbeyis_restore(image: &[u8]) -> u32
    ensures { result ≡ (restoring image.now).refusal }
{
    bus::copy::togbeyis_restore(image)
}

#[unsafe(no_mangle)]
pub extern "C" fn togbeyis_save(image: &[u8], copy: &mut [u8], blocks: &mut u32) -> u32
    ensures { Copies blocks.old image.now copy.old result blocks.new copy.new }
{
    bus::copy::togbeyis_save(image, copy, blocks)
}
