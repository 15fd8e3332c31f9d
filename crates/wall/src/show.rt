// The page of an image. Only reading and writing, of which no contract can speak, is outside the contract of `print_wall`.
ghost use Rattle.std.specs.Prelude.{◌≡◌, ◌≤◌, [], length};
ghost use Rattle.page.specs.Pages.{wall};

use image::restoring::restore;
use page::{Listing, MOST_BYTES, NO_STATION};
use std::io::Write;
use std::rt::{Stdin, Stdout};
use text::Text;

// What is read at most: more than an image has.
const LONGEST: usize = 65536;

// All that is to be written, from all that was read.
fn print_wall(image: &[u8], out: &mut Text<MOST_BYTES>)
    requires { out.old ≡ [] }
    ensures { out.new ≡ wall image.now }
{
    let restored = restore(image);
    if restored.answer.is_err() {
        out.print(NO_STATION);
    } else {
        let one = &restored.station;
        let listing = Listing {
            clock: one.clock,
            charges: &one.feeder.charges,
        };
        listing.print_pages(out);
    }
}

// Reads until the text is full or the input ends: no more than there is room.
fn read_full(input: &mut Stdin, text: &mut Text<LONGEST>)
    ensures within { length text.new ≤ 65536 }
{
    while text.as_bytes().len() < LONGEST {
        if text.read_more(input) == 0 {
            break;
        }
    }
}

// Reads on to the end of the input. A proved loop has to end, and nothing says that the input does: no run takes so many turns.
fn read_on(input: &mut Stdin) {
    let mut rest = Text::<4096>::new();
    for _ in 0..u64::MAX {
        rest.clear();
        if rest.read_more(input) == 0 {
            break;
        }
    }
}

// Where the input fills the text, which is longer than an image, it is refused whatever follows. A write that fails is passed over,
// since nothing follows it.
pub fn show(mut input: Stdin, mut output: Stdout) {
    let mut image = Text::<LONGEST>::new();
    read_full(&mut input, &mut image);
    if image.as_bytes().len() == LONGEST {
        read_on(&mut input);
    }
    let mut out = Text::<MOST_BYTES>::new();
    print_wall(image.as_bytes(), &mut out);
    let _ = output.write_all(out.as_bytes());
}
