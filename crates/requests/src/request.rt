// What a line of text asks for.
ghost use Rattle.std.specs.Prelude.{◌≡◌, ◌≤◌, min, ◌∷◌, length, drop};
ghost use Rattle.text.specs.Parts.{split};
ghost use Rattle.calls.specs.Applied.{lends};
ghost use Rattle.requests.specs.declared.word.CallName.TheVariants.{Open};
ghost use Rattle.requests.specs.Requests.{taken, Calls, with_lent, read_request, request_values, TakesNumbers, Asks};

use crate::word::{CallName, call_named};
use calls::Call;
use ordering::Order;
use station::open::{Asked, number_or_zero};
use std::ops::RangeInclusive;
use text::{NumberError, read_number, split_once};

// Why a request is no call.
#[derive(Clone, Copy)]
pub enum Reason {
    UnknownCall,
    Number(NumberError),
    MissingNumber,
    ExtraNumber,
    LineTooLong,
}

// The range of places in the list lent for reading, from `start` up to `end`: the library's range is not copied.
#[derive(Clone, Copy)]
pub struct ReadPlaces {
    pub start: usize,
    pub end: usize,
}

// What a line of text asks for. The numbers that an offer or a board reads stand in the list that was lent for reading, in the
// places `read`; a clock move and a board ask for so many places to write to. Any other call has none of either.
#[derive(Clone, Copy)]
pub enum Request {
    Nothing,
    Open {
        asked: Asked,
    },
    Call {
        call: Call,
        read: ReadPlaces,
        places: u32,
    },
}

// The most numbers that are read: more than a request can hold.
pub const MOST: usize = 2048;

// The most bytes of a line that is read.
pub const LONGEST: usize = 4096;

// The most places that are lent to a call.
pub const LENT: usize = 4096;

// What a line begins with that is passed over.
const COMMENT: u8 = b'#';

// How many numbers a call takes. An opening takes the settings of one to four feeders, an offer and a board as many numbers as a request
// can hold.
fn taken(name: CallName) -> RangeInclusive<usize>
    ensures { (result ≡ taken name) × (result.end ≤ 2048) }
{
    match name {
        CallName::Open => 5..=14,
        CallName::Preview => 5..=5,
        CallName::Commit => 6..=6,
        CallName::Move => 2..=2,
        CallName::Offer => 1..=MOST,
        CallName::Latest => 1..=1,
        CallName::Lines => 2..=2,
        CallName::Enquire => 1..=1,
        CallName::Board => 1..=MOST,
        CallName::Withdraw => 1..=1,
    }
}

// Reads the numbers behind the first word into the lent list, and answers how many they are. They are counted by hand, since the count
// is what is answered.
fn read_numbers(
    text: &[u8],
    takes: RangeInclusive<usize>,
    numbers: &mut [u32],
) -> Result<usize, Reason>
    requires { takes.end ≤ length numbers.old }
    ensures { TakesNumbers takes (drop 1 (split 32 text.now)) numbers.old numbers.new result }
{
    let (least, most) = takes.into_inner();
    let mut count = 0;
    for word in text.split(|byte| *byte == b' ').skip(1) {
        if count == most {
            return Err(Reason::ExtraNumber);
        }
        numbers[count] = read_number(word).map_err(Reason::Number)?;
        count += 1;
    }
    if count < least {
        return Err(Reason::MissingNumber);
    }
    Ok(count)
}

// An opening with its numbers. Feeders that are not given count as 0 0 0.
fn open_of(numbers: &[u32]) -> Result<Request, Reason>
    ensures { Calls Open numbers.now result }
{
    match numbers {
        [count, site, settings @ ..] if settings.len() % 3 == 0 => {
            let asked = Asked::from_numbers(*count, *site, settings);
            Ok(Request::Open { asked })
        }
        _ => Err(Reason::MissingNumber),
    }
}

// A call with what is lent to it: the numbers behind the first to an offer and a board, so many places to a move and a board.
fn with_lent(call: Call, numbers: &[u32]) -> Request
    ensures { result ≡ with_lent (lends call) call numbers.now }
{
    let none = ReadPlaces { start: 0, end: 0 };
    let behind = ReadPlaces {
        start: numbers.len().min(1),
        end: numbers.len(),
    };
    let (read, places) = match call {
        Call::Move { .. } => (none, number_or_zero(numbers, 1)),
        Call::Offer { .. } => (behind, 0),
        Call::Board => (behind, number_or_zero(numbers, 0)),
        _ => (none, 0),
    };
    Request::Call { call, read, places }
}

// What a name asks for with its numbers.
fn request_of(name: CallName, numbers: &[u32]) -> Result<Request, Reason>
    ensures { Calls name numbers.now result }
{
    let order = Order::from_numbers(numbers);
    let first = number_or_zero(numbers, 0);
    let allowance = number_or_zero(numbers, 1);
    let shown = number_or_zero(numbers, 5);
    let call = match name {
        CallName::Open => return open_of(numbers),
        CallName::Preview => Call::Preview { order },
        CallName::Commit => Call::Commit { order, shown },
        CallName::Move => Call::Move { target: first },
        CallName::Offer => Call::Offer { feeder: first },
        CallName::Latest => Call::ReplanLatest { feeder: first },
        CallName::Lines => Call::ReplanLines {
            feeder: first,
            allowance,
        },
        CallName::Enquire => Call::Enquire { ticket: first },
        CallName::Board => Call::Board,
        CallName::Withdraw => Call::Withdraw { ticket: first },
    };
    Ok(with_lent(call, numbers))
}

// The first word of a text, up to its first space.
fn first_word(text: &[u8]) -> &[u8]
    ensures { split 32 text.now ≡ result.now ∷ drop 1 (split 32 text.now) }
{
    split_once(text, b' ').map_or(text, |(word, _)| word)
}

// What a line of text asks for, its line feed left out. The lent list takes the numbers, which are 2,045 at
// most, and keeps every place after them.
pub fn read_request(text: &[u8], numbers: &mut [u32]) -> Result<Request, Reason>
    requires { 2048 ≤ length numbers.old }
    ensures { Asks (read_request text.now) (request_values text.now) numbers.old numbers.new result }
{
    if text.len() > LONGEST {
        return Err(Reason::LineTooLong);
    }
    if text.first().is_none_or(|byte| *byte == COMMENT) {
        return Ok(Request::Nothing);
    }
    let name = call_named(first_word(text)).ok_or(Reason::UnknownCall)?;
    let count = read_numbers(text, taken(name), numbers)?;
    request_of(name, &numbers[..count])
}

// How many places are lent to a call that asks for this many.
pub fn places_lent(places: u32) -> usize
    ensures { (result ≡ min places 4096) × (result ≤ 4096) }
{
    (places as usize).min(LENT)
}
