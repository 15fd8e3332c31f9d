// Reads requests from standard input, one to a line of text, and writes the answer to each on standard output.
#![tactic(auto)]

mod serve;

use reply::{LONGEST_ANSWER, Lists};
use requests::{LENT, MOST};
use session::turn::{Buffers, FULL};
use text::Text;

// A block holds what is kept of a request, at most 4,097 bytes, and what is read after it.
const BLOCK: usize = 8192;

// The longest answer stands behind up to 6,000 bytes of those before it.
const TEXT: usize = FULL + LONGEST_ANSWER;

// The buffers stand on the stack, so they are no larger than a session needs.
fn main(rt: HostRuntime) {
    let mut buffers = Buffers {
        block: Text::new(),
        lists: Lists {
            numbers: [0; MOST],
            list: [0; LENT],
        },
        out: Text::new(),
    };
    serve::serve(rt.stdin(), rt.stdout(), &mut buffers);
}
