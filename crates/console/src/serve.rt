// Reading and writing. No contract can say which bytes come, or that they are written: `turn` is lent what is read, and the text that it
// leaves is written.
ghost use Rattle.text.specs.Blocks.{Grown};
ghost use Rattle.session.specs.Turns.{Reached};

use crate::{BLOCK, TEXT};
use requests::{LENT, MOST};
use session::turn::{Buffers, Session, Wants};
use std::io::Write;
use std::rt::{Stdin, Stdout};
use text::Text;

// Reads once where bytes are wanted, and answers how many bytes came.
fn read_wanted(input: &mut Stdin, wants: Wants, block: &mut Text<BLOCK>) -> usize
    ensures { Grown block.old block.new result }
{
    if wants != Wants::Bytes {
        return 0;
    }
    block.read_more(input)
}

// Turn by turn to the end of the input. Answers the last session. A write that fails is passed over: the calls after it are made all the
// same. A proved loop has to end, and nothing says that the input does: no run takes so many turns.
pub fn serve(
    mut input: Stdin,
    mut output: Stdout,
    buffers: &mut Buffers<BLOCK, MOST, LENT, TEXT>,
) -> Session
    ensures { Reached result buffers.new.block }
{
    buffers.block.clear();
    let mut session = Session::new();
    for _ in 0..u64::MAX {
        let count = read_wanted(&mut input, session.wants, &mut buffers.block);
        session.turn(count, buffers);
        let _ = output.write_all(buffers.out.as_bytes());
        if session.wants == Wants::Nothing {
            break;
        }
    }
    session
}
