// One request: read, called, printed.
#![tactic(auto)]

ghost use Rattle.std.specs.Prelude.{◌≡◌, ◌+◌, ◌≤◌, ◌++◌, length, take};
ghost use Rattle.std.proofs.lemmas.List.Edits.{sets};
ghost use Rattle.requests.specs.Requests.{read_request, request_values, meaning, Fits, Asks};
ghost use Rattle.rules.specs.Calls.{opening};
ghost use Rattle.station.specs.View.{view, Valid};
ghost use Rattle.station.specs.Opened.{asked_of, Opens};
ghost use Rattle.reply.specs.Reply.{reply, answered, lent_by, lent_to, request_written, said_text, SaidFits, Says, Replied, places_of, longest_answer};

use calls::{Answer, make};
use refusals::Refusal;
use requests::{Reason, Request};
use station::Station;
use station::bounds::Opened;
use station::open::Asked;
use text::Text;

// The bytes of the longest answer: 96, and 21 for each number of the list. At most 720 pairs are reported, 180 of each feeder, and 180
// tickets answered.
pub const LONGEST_ANSWER: usize = 30336;

// The lists that are lent to a call: for the numbers of its request, and for what it writes. They are of any size that is enough.
#[derive(Drop)]
pub struct Lists<const NUMBERS: usize, const PLACES: usize> {
    pub numbers: [u32; NUMBERS],
    pub list: [u32; PLACES],
    pub ghost room: { (2048 ≤ NUMBERS) × (4096 ≤ PLACES) },
}

// What is said to a request. With the answer of a call stand how many numbers it read, and how many places it was lent for writing.
#[derive(Clone, Copy)]
pub enum Said {
    Nothing,
    Opening(Result<Opened, Refusal>),
    Call {
        answer: Result<Answer, Refusal>,
        asked: usize,
        lent: usize,
    },
}

// How many places a request asks for, to be written to.
fn places_asked(request: &Request) -> u32
    ensures { result ≡ places_of request.now }
{
    match request {
        Request::Nothing => 0,
        Request::Open { .. } => 0,
        Request::Call { places, .. } => *places,
    }
}

// Opens the station anew. It is not inlined, since room for a whole station is cleared at each call of the function it stands in.
#[inline(never)]
fn reopen(station: &mut Station, asked: Asked) -> Result<Opened, Refusal>
    ensures { Opens (opening (asked_of asked)) result station.new }
{
    let opened = Station::open(asked);
    *station = opened.station;
    opened.answer
}

// Prints what is said, with the list that was lent for writing.
pub fn print<const N: usize>(said: Said, list: &[u32], out: &mut Text<N>)
    requires { SaidFits said (length list.now) × (length out.old + longest_answer ≤ N) }
    ensures { out.new ≡ out.old ++ said_text said list.now }
{
    match said {
        Said::Nothing => {}
        Said::Opening(answer) => answers::print_opening(answer, out),
        Said::Call {
            answer,
            asked,
            lent,
        } => answers::print_answer(answer, asked, &list[..lent], out),
    }
}

impl<const NUMBERS: usize, const PLACES: usize> Lists<NUMBERS, PLACES> {
    // What a line of text asks for, its line feed left out. The lists are lent for its numbers and for what a call writes, and as many
    // places as it asks for are filled; every place that these do not take stays.
    pub fn read(&mut self, text: &[u8]) -> Result<Request, Reason>
        ensures asks { Asks (read_request text.now) (request_values text.now) self.old.numbers self.new.numbers result }
        ensures list_after { self.new.list ≡ sets self.old.list 0 (lent_to result) }
    {
        let request = requests::read_request(text, &mut self.numbers)?;
        let lent = requests::places_lent(places_asked(&request));
        boards::none_held(&mut self.list, lent);
        Ok(request)
    }

    // Does what a request asks for, with the lists that `read` left.
    pub fn reply(&mut self, station: &mut Station, request: Request) -> Said
        requires { Valid station.old × Fits 2048 request × (take (length (lent_by request)) self.old.list ≡ lent_by request) }
        ensures says { Says (reply (view station.old) (meaning request self.old.numbers)) station.new result self.new.list }
        ensures list_after { self.new.list ≡ sets self.old.list 0 (request_written (view station.old) (meaning request self.old.numbers)) }
        ensures numbers_stay { self.new.numbers ≡ self.old.numbers }
    {
        match request {
            Request::Nothing => Said::Nothing,
            Request::Open { asked } => {
                let answer = reopen(station, asked);
                Said::Opening(answer)
            }
            Request::Call { call, read, places } => {
                // A slice first: no part with a start is lent of an array of any length.
                let numbers = &self.numbers[..];
                let lent = requests::places_lent(places);
                let read = &numbers[read.start..read.end];
                let asked = read.len();
                let answer = make(station, call, read, &mut self.list[..lent]);
                Said::Call {
                    answer,
                    asked,
                    lent,
                }
            }
        }
    }

    // Answers one request, its line feed left out: the station goes on, and the answer is printed.
    pub fn answer<const N: usize>(&mut self, station: &mut Station, text: &[u8], out: &mut Text<N>)
        requires { Valid station.old × (length out.old + longest_answer ≤ N) }
        ensures { Replied (answered (view station.old) text.now) station.new out.old out.new }
    {
        match self.read(text) {
            Ok(request) => {
                let said = self.reply(station, request);
                print(said, &self.list, out);
            }
            Err(reason) => requests::print_error(reason, out),
        }
    }
}
