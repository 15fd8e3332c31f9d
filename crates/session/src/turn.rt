// The program as a machine without input and output. A turn is lent what was read, and leaves the text that is to be written. The
// contract of `turn` (specs/Turns.antt) has equations with the definition of the program's whole answer (specs/Session.antt), and says
// what chains of turns come to.
ghost use Rattle.std.specs.Prelude.{◌≡◌, ◌+◌, ◌≤◌, [], length};
ghost use Rattle.station.specs.Opened.{FreshLeast};
ghost use Rattle.station.specs.View.{view, Valid};
ghost use Rattle.reply.specs.Reply.{answered, longest_answer, Replied};
ghost use Rattle.session.specs.Turns.{full, ends, Answers, Stops, KeptTo, Turned};
ghost use Rattle.session.specs.declared.turn.Wants.TheVariants.{Bytes};

use reply::Lists;
use requests::LONGEST;
use station::Station;
use text::{Text, split_once};

// What a session needs before it can go on: more bytes of the input, room in the buffer for further answers, or nothing,
// since the input has ended and all is answered.
#[derive(Clone, Copy, PartialEq)]
pub enum Wants {
    Bytes,
    Room,
    Nothing,
}

// Past this length of the text no further request is answered, so that any answer still fits.
pub const FULL: usize = 6000;

// What is kept from turn to turn, beside the bytes that are not yet answered: the station, and what is wanted.
#[derive(Clone, Copy)]
pub struct Session {
    pub station: Station,
    pub wants: Wants,
}

// The block that is read into, which holds what is kept of a request, at most 4,097 bytes, and what is read after it; the lists that are
// lent to calls; and the text that is to be written, which has room for any answer behind `FULL` bytes.
#[derive(Drop)]
pub struct Buffers<
    const BLOCK: usize,
    const NUMBERS: usize,
    const PLACES: usize,
    const TEXT: usize,
> {
    pub block: Text<BLOCK>,
    pub lists: Lists<NUMBERS, PLACES>,
    pub out: Text<TEXT>,
    pub ghost room: { full + longest_answer ≤ TEXT },
}

impl<const BLOCK: usize, const NUMBERS: usize, const PLACES: usize, const TEXT: usize> Buffers<
    BLOCK,
    NUMBERS,
    PLACES,
    TEXT,
> {
    // Answers the requests of the block that have ended, one after another, as long as there is room for any answer. Answers the place
    // after them.
    fn answer_requests(&mut self, station: &mut Station) -> usize
        requires { Valid station.old }
        ensures answers { Answers (view station.old) self.old.block station.new result self.new.out }
        ensures stops { Stops self.old.block result self.new.out }
        ensures block_stays { self.new.block ≡ self.old.block }
    {
        let Buffers { block, lists, out } = self;
        let bytes = block.as_bytes();
        out.clear();
        let mut left = bytes;
        while out.as_bytes().len() <= FULL {
            let Some((request, rest)) = split_once(left, b'\n') else {
                break;
            };
            lists.answer(station, request, out);
            left = rest;
        }
        bytes.len() - left.len()
    }

    // The input has ended: what is held is its last request, which has no line feed.
    fn answer_last(&mut self, station: &mut Station)
        requires { Valid station.old }
        ensures answer { Replied (answered (view station.old) self.old.block) station.new [] self.new.out }
        ensures none_held { self.new.block ≡ [] }
    {
        let Buffers { block, lists, out } = self;
        out.clear();
        lists.answer(station, block.as_bytes(), out);
        block.clear();
    }
}

// Of a request that goes on no more is kept than shows that it is too long.
fn kept_to(from: usize, filled: usize) -> usize
    requires { from ≤ filled }
    ensures { KeptTo from filled result }
{
    from + (filled - from).min(LONGEST + 1)
}

fn input_ends(wants: Wants, count: usize) -> bool
    ensures { result ≡ ends wants count }
{
    match wants {
        Wants::Bytes => count == 0,
        Wants::Room => false,
        Wants::Nothing => true,
    }
}

impl Session {
    // From the fresh station of 1, 100, with one feeder and W 720.
    pub fn new() -> Session
        ensures { FreshLeast result.station × (result.wants ≡ Bytes) }
    {
        let station = Station::least();
        Session {
            station,
            wants: Wants::Bytes,
        }
    }

    // One turn. The last `count` bytes of the block were read for it; none, where some were wanted, are the end of the input. The bytes that
    // are not yet answered stay in the block: all of them where there is no more room for answers, and of a request that goes on no more
    // than is kept.
    pub fn turn<const BLOCK: usize, const NUMBERS: usize, const PLACES: usize, const TEXT: usize>(
        &mut self,
        count: usize,
        buffers: &mut Buffers<BLOCK, NUMBERS, PLACES, TEXT>,
    )
        requires { Valid self.old.station }
        ensures { Turned self.old count buffers.old.block self.new buffers.new.block buffers.new.out }
    {
        let station = &mut self.station;
        if input_ends(self.wants, count) {
            buffers.answer_last(station);
            self.wants = Wants::Nothing;
            return;
        }
        let from = buffers.answer_requests(station);
        let filled = buffers.block.as_bytes().len();
        let (to, then) = if buffers.out.as_bytes().len() > FULL {
            (filled, Wants::Room)
        } else {
            (kept_to(from, filled), Wants::Bytes)
        };
        buffers.block.keep(from, to);
        self.wants = then;
    }
}
