// Numbers as bytes, the lowest first.
ghost use Rattle.std.specs.Prelude.{◌≡◌, ◌+◌, ◌<◌, ◌≤◌, length};
ghost use Rattle.layout.specs.Bytes.{byte_of};
ghost use Rattle.layout.specs.Reading.{header_at};
ghost use Rattle.blocks.specs.Places.{Put};

// Byte j of a number, the lowest first.
pub fn byte_of(x: u32, j: usize) -> u8
    requires { j < 4 }
    ensures { result ≡ byte_of j x }
{
    x.to_le_bytes()[j]
}

// The 32-bit number that begins at a place of the image.
#[tactic(auto, unfolding(layout::specs::Reading::header_at))]
pub fn number_at(image: &[u8], at: usize) -> u32
    requires { at + 4 ≤ length image.now }
    ensures { result ≡ header_at image.now at }
{
    u32::from_le_bytes([image[at], image[at + 1], image[at + 2], image[at + 3]])
}

// Its four bytes, written there.
#[tactic(auto, using(crate::proofs::Filling::put_four))]
pub fn put_number(image: &mut [u8], at: usize, x: u32)
    requires { at + 4 ≤ length image.old }
    ensures { Put image.old image.new at x }
{
    image[at..at + 4].copy_from_slice(&x.to_le_bytes());
}
