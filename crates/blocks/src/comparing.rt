// Images compared.
ghost use Rattle.std.specs.Prelude.{◌≡◌};
ghost use Rattle.layout.specs.Blocks.{differing};

use crate::contents::{BLOCK, IMAGE};

// How many of the nine blocks differ.
pub fn differing_blocks(a: &[u8; IMAGE], b: &[u8; IMAGE]) -> u32
    ensures { result ≡ differing a.now b.now }
{
    a.chunks(BLOCK)
        .zip(b.chunks(BLOCK))
        .filter(|(x, y)| x != y)
        .count() as u32
}
