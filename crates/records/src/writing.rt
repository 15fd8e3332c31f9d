// The contents of a station, column by column: each byte of a column's numbers lies in one row with the same byte of all records.
ghost use Rattle.std.specs.Prelude.{◌≡◌, ◌+◌, ◌<◌, ◌≤◌, length};
ghost use Rattle.rules.specs.Site.{places};
ghost use Rattle.charges.specs.Arrays.{Columns};
ghost use Rattle.station.specs.View.{view, station_of};
ghost use Rattle.records.specs.Contents.{contents_of};
ghost use Rattle.records.specs.Rows.{HeaderPut, RowPut, ColumnPut};

use crate::arrangement::{
    CLOCK, DUE, Field, HELD, LIMIT, LINE, NEXT, ORDER_MINUTE, PERCENT, RATE, SITE, START, TAIL,
    TICKET, TIME, place_of,
};
use blocks::bytes::{byte_of, put_number};
use blocks::contents::CONTENTS;
use station::only::One;
use station::open::Settings;
use validity::header::Header;

// The numbers of block 0.
fn put_header(header: &Header, contents: &mut [u8; CONTENTS])
    ensures { HeaderPut header.now contents.old contents.new }
{
    put_number(contents, LIMIT, header.settings.limit);
    put_number(contents, PERCENT, header.settings.percent);
    put_number(contents, TAIL, header.settings.tail);
    put_number(contents, CLOCK, header.clock);
    put_number(contents, NEXT, header.next);
    put_number(contents, HELD, header.held);
    put_number(contents, SITE, header.site);
}

// A byte of each number of a column, as byte j of the records.
fn put_row(column: &[u32], j: usize, byte: usize, contents: &mut [u8; CONTENTS])
    requires { (length column.now ≤ places) × (j < 20) × (byte < 4) }
    ensures { RowPut column.now j byte contents.old contents.new }
{
    for (q, number) in column.iter().enumerate() {
        contents[place_of(q, j)] = byte_of(*number, byte);
    }
}

// The column of a field.
fn put_column(column: &[u32], field: Field, contents: &mut [u8; CONTENTS])
    requires { length column.now ≤ places }
    ensures { ColumnPut column.now field.from field.width contents.old contents.new }
{
    for byte in 0..field.width {
        put_row(column, field.from + byte, byte, contents);
    }
}

// The contents of the station of which this is the only feeder.
pub fn contents_of(one: &One) -> [u8; CONTENTS]
    requires { Columns one.now.feeder.charges }
    ensures { result ≡ contents_of (view (station_of one.now)) }
{
    let charges = &one.feeder.charges;
    let held = charges.held;
    let header = Header {
        settings: Settings {
            limit: one.feeder.limit,
            percent: one.feeder.percent,
            tail: one.feeder.tail,
        },
        clock: one.clock,
        next: one.next,
        held: held as u32,
        site: one.site,
    };
    let mut contents = [0; CONTENTS];
    put_header(&header, &mut contents);
    put_column(&charges.tickets[..held], TICKET, &mut contents);
    put_column(&charges.starts[..held], START, &mut contents);
    put_column(&charges.dues[..held], DUE, &mut contents);
    put_column(&charges.order_minutes[..held], ORDER_MINUTE, &mut contents);
    put_column(&charges.times[..held], TIME, &mut contents);
    put_column(&charges.lines[..held], LINE, &mut contents);
    put_column(&charges.rates[..held], RATE, &mut contents);
    contents
}
