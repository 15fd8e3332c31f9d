// Where the bytes of the records lie among the contents: with specs/Arrangement.antt of `layout` the only file that knows it.
ghost use Rattle.std.specs.Prelude.{◌≡◌, ◌+◌, ◌<◌, ◌≤◌};
ghost use Rattle.records.specs.Contents.{record_place};

use blocks::contents::PER_BLOCK;

// "Block 0 holds, in 32 bits each, N, c, r, clock, next ticket and number held", and "block 0 gains W (32 bits) last": where each begins.
pub const LIMIT: usize = 0;

pub const PERCENT: usize = 4;

pub const TAIL: usize = 8;

pub const CLOCK: usize = 12;

pub const NEXT: usize = 16;

pub const HELD: usize = 20;

pub const SITE: usize = 24;

// A field of a record: its first byte, and how many it has.
#[derive(Clone, Copy)]
pub struct Field {
    pub from: usize,
    pub width: usize,
    pub ghost within: { (from + width ≤ 20) × (width ≤ 4) },
}

// "A record: ticket, start, d, order minute (32 bits each), p (16), line (8), rate (8)"
pub const TICKET: Field = Field { from: 0, width: 4 };

pub const START: Field = Field { from: 4, width: 4 };

pub const DUE: Field = Field { from: 8, width: 4 };

pub const ORDER_MINUTE: Field = Field { from: 12, width: 4 };

pub const TIME: Field = Field { from: 16, width: 2 };

pub const LINE: Field = Field { from: 18, width: 1 };

pub const RATE: Field = Field { from: 19, width: 1 };

// The place of byte j of record q: behind block 0 the bytes of the records stand in the order of their numbers.
pub fn place_of(q: usize, j: usize) -> usize
    requires { (q < 200) × (j < 20) }
    ensures { (result ≡ record_place q j) × (result < 4508) }
{
    PER_BLOCK + (200 * j + q)
}
