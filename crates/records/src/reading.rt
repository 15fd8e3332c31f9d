// A station read from contents.
ghost use Rattle.std.specs.Prelude.{◌≡◌, ℕ, ◌+◌, ◌<◌, ◌≤◌, length, get_or};
ghost use Rattle.rules.specs.Site.{places};
ghost use Rattle.records.specs.Contents.{header_in, in_range, Headed};
ghost use Rattle.records.specs.Columns.{RowJoined, ColumnRead, ColumnTo, HoldsFrom, ReadFrom};

use crate::arrangement::{
    CLOCK, DUE, Field, HELD, LIMIT, LINE, NEXT, ORDER_MINUTE, PERCENT, RATE, SITE, START, TAIL,
    TICKET, TIME, place_of,
};
use blocks::bytes::number_at;
use blocks::contents::CONTENTS;
use charges::{Charges, PLACES};
use station::Feeder;
use station::only::One;
use station::open::Settings;
use validity::header::Header;

// p + r of each charge.
#[tactic(auto, using(charges::proofs::Storing::filled_none))]
fn with_tail(times: &[u32], tail: u32) -> [u32; PLACES]
    requires { (length times.now ≤ places) × (tail ≤ 5) × ((q : ℕ) → q < length times.now → get_or times.now q 0 < 65536) }
    ensures { ColumnTo (λ q. get_or times.now q 0 + tail) (length times.now) result }
{
    let mut active_times = [0; PLACES];
    for (q, time) in times.iter().enumerate() {
        active_times[q] = *time + tail;
    }
    active_times
}

// The numbers of block 0.
fn read_header(contents: &[u8; CONTENTS]) -> Header
    ensures { result ≡ header_in contents.now }
{
    Header {
        settings: Settings {
            limit: number_at(contents, LIMIT),
            percent: number_at(contents, PERCENT),
            tail: number_at(contents, TAIL),
        },
        clock: number_at(contents, CLOCK),
        next: number_at(contents, NEXT),
        held: number_at(contents, HELD),
        site: number_at(contents, SITE),
    }
}

// Whether the number held and the settings are in range.
fn is_in_range(header: &Header) -> bool
    ensures { result ≡ in_range header.now }
{
    header.held as usize <= PLACES && header.settings_valid()
}

// Contents whose block 0 has a number held and settings that are in range.
#[derive(Clone, Copy)]
pub struct Records<'a> {
    contents: &'a [u8; CONTENTS],
    header: Header,
    pub ghost headed: { Headed contents.now header },
}

impl<'a> Records<'a> {
    ghost use Rattle.records.specs.Records.{RecordsOf};

    // None where the number held or a setting is out of range.
    pub fn of(contents: &'a [u8; CONTENTS]) -> Option<Records<'a>>
        ensures { RecordsOf contents.now result }
    {
        let header = read_header(contents);
        if is_in_range(&header) {
            Some(Records { contents, header })
        } else {
            None
        }
    }

    // Byte j of each record joined to the numbers of a column, as their lowest byte.
    fn join_row(&self, column: &mut [u32], j: usize)
        requires { (j < 20) × (length column.old ≤ self.now.header.held) × ((q : ℕ) → q < length column.old → get_or column.old q 0 < 16777216) }
        ensures { RowJoined self.now.contents.now j column.old column.new }
    {
        for (q, number) in column.iter_mut().enumerate() {
            *number = 256 * *number + u32::from(self.contents[place_of(q, j)]);
        }
    }

    // The column of a field: 0 behind the records.
    fn read_column(&self, field: Field) -> [u32; PLACES]
        ensures { ColumnRead self.now.contents.now field.from field.width self.now.header.held result }
    {
        let held = self.header.held as usize;
        let mut column = [0; PLACES];
        for j in (0..field.width).rev() {
            self.join_row(&mut column[..held], field.from + j);
        }
        column
    }

    // The charges that the records would be of.
    fn read_charges(&self) -> Charges
        ensures { HoldsFrom self.now.contents.now self.now.header.held self.now.header.settings.tail result }
    {
        let held = self.header.held as usize;
        let times = self.read_column(TIME);
        Charges {
            held,
            tickets: self.read_column(TICKET),
            lines: self.read_column(LINE),
            order_minutes: self.read_column(ORDER_MINUTE),
            times,
            active_times: with_tail(&times[..held], self.header.settings.tail),
            dues: self.read_column(DUE),
            starts: self.read_column(START),
            rates: self.read_column(RATE),
        }
    }

    // The only feeder of the station that the contents would be of. No whole station is made of it, since that has the places of four.
    pub fn read(&self) -> One
        ensures { ReadFrom self.now.contents.now result }
    {
        let header = self.header;
        let feeder = Feeder {
            limit: header.settings.limit,
            percent: header.settings.percent,
            bound: header.settings.bound(),
            tail: header.settings.tail,
            charges: self.read_charges(),
        };
        One {
            site: header.site,
            clock: header.clock,
            next: header.next,
            feeder,
        }
    }
}
