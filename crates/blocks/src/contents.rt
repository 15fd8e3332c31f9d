// The contents of the nine blocks, 508 bytes of each, one after another: taken from an image, and put into one with their checks.
ghost use Rattle.std.specs.Prelude.{◌≡◌, ◌≤◌, length, get_or};
ghost use Rattle.layout.specs.Lists.{every};
ghost use Rattle.layout.specs.Image.{weighed};
ghost use Rattle.layout.specs.Reading.{checked};
ghost use Rattle.blocks.specs.Contents.{contents_in, laid_out};

use crate::bytes::{number_at, put_number};

// "nine blocks of 512 bytes: 508 bytes, then a 32-bit check"; the 508 bytes are those of the contents.
pub const BLOCKS: usize = 9;

pub const BLOCK: usize = 512;

pub const PER_BLOCK: usize = 508;

pub const IMAGE: usize = BLOCKS * BLOCK;

pub const CONTENTS: usize = BLOCKS * PER_BLOCK;

// "the sum of (place + 1) × byte, places from 0"
#[tactic(auto, using(layout::proofs::Checks::weighed_none, layout::proofs::Checks::weighed_more, crate::proofs::Checking::weight_small))]
fn check_of(bytes: &[u8]) -> u32
    requires { length bytes.now ≤ 508 }
    ensures { result ≡ weighed (λ i. get_or bytes.now i 0) (length bytes.now) }
{
    let mut sum = 0;
    for (place, byte) in bytes.iter().enumerate() {
        sum += (place as u32 + 1) * u32::from(*byte);
    }
    sum
}

// Whether the check of a block is right, which is block 0 of itself.
#[tactic(auto, using(crate::proofs::Checking::checked_told))]
fn is_checked(block: &[u8; BLOCK]) -> bool
    ensures { result ≡ checked block.now 0 }
{
    check_of(&block[..PER_BLOCK]) == number_at(block, PER_BLOCK)
}

// Whether each block's check is right.
pub fn is_undamaged(image: &[u8; IMAGE]) -> bool
    ensures { result ≡ every (checked image.now) 9 }
{
    let (blocks, _) = image.as_chunks::<BLOCK>();
    blocks.iter().all(is_checked)
}

// The contents of all blocks, whether their checks are right or not. They are lent, since an array that a call hands back is copied
// twice and stands twice on the stack of its caller. Blocks go by their numbers, since of what is written through `chunks_mut` a proof
// knows the length alone.
pub fn take_blocks(image: &[u8; IMAGE], contents: &mut [u8; CONTENTS])
    ensures { contents.new ≡ contents_in image.now }
{
    for block in 0..BLOCKS {
        let start = BLOCK * block;
        let bytes = &image[start..start + PER_BLOCK];
        contents[PER_BLOCK * block..PER_BLOCK * (block + 1)].copy_from_slice(bytes);
    }
}

// The image that has these contents, block by block in the same way.
pub fn put_blocks(contents: &[u8; CONTENTS], image: &mut [u8; IMAGE])
    ensures { image.new ≡ laid_out contents.now }
{
    for block in 0..BLOCKS {
        let start = BLOCK * block;
        let bytes = &contents[PER_BLOCK * block..PER_BLOCK * (block + 1)];
        image[start..start + PER_BLOCK].copy_from_slice(bytes);
        put_number(image, start + PER_BLOCK, check_of(bytes));
    }
}
