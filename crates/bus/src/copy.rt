// An image by itself: tested, and saved to another list.
ghost use Rattle.std.specs.Prelude.{◌≡◌};
ghost use Rattle.layout.specs.Reading.{restoring};
ghost use Rattle.bus.specs.Images.{CopiedTo, Copies};

use image::restoring::restore;
use image::saving::save_only;
use refusals::Refusal;

#[unsafe(no_mangle)]
pub extern "C" fn togbeyis_restore(image: &[u8]) -> u32
    ensures { result ≡ (restoring image.now).refusal }
{
    restore(image).answer.err().map_or(0, u32::from)
}

// How many blocks of the copy differ from what it was.
fn copied(image: &[u8], copy: &mut [u8]) -> Result<u32, Refusal>
    ensures { CopiedTo image.now copy.old result copy.new }
{
    let restored = restore(image);
    restored.answer?;
    save_only(&restored.station, copy)
}

#[unsafe(no_mangle)]
pub extern "C" fn togbeyis_save(image: &[u8], copy: &mut [u8], blocks: &mut u32) -> u32
    ensures { Copies blocks.old image.now copy.old result blocks.new copy.new }
{
    match copied(image, copy) {
        Ok(count) => {
            *blocks = count;
            0
        }
        Err(refusal) => u32::from(refusal),
    }
}
