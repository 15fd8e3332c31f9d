// Rows of 37 characters and a line feed, the heading among them.
ghost use Rattle.std.specs.Prelude.{◌≡◌, ◌+◌, ◌≤◌, ◌++◌, length};
ghost use Rattle.text.specs.Numbers.{decimal};
ghost use Rattle.charges.specs.Arrays.{charge_of};
ghost use Rattle.page.specs.Lines.{column, row};
ghost use Rattle.page.specs.Lined.{ChargeFits};

use charges::Charge;
use charges::ends::end_of;
use text::Text;

// Lines that are always the same.
pub const HEADING: &[u8; 38] = b"ticket l     start       end state   \n";

pub const BLANK: &[u8; 38] = b"                                     \n";

pub const NO_STATION: &[u8; 38] = b"no station                           \n";

// A number at the right of a column, and the space behind it.
fn print_column<const N: usize>(n: u64, width: usize, out: &mut Text<N>)
    requires { (length (decimal n) ≤ width) × (width ≤ 9) × (length out.old + (width + 1) ≤ N) }
    ensures printed { out.new ≡ out.old ++ column width (decimal n) }
    ensures value { length out.new ≡ length out.old + (width + 1) }
{
    let mut column = [b' '; 9];
    itoa::write_digits(n, &mut column, width);
    out.print(&column[..width]);
    out.print(b" ");
}

// The row of a charge at a clock. A start equal to the clock still waits.
pub fn print_row<const N: usize>(charge: Charge, clock: u32, out: &mut Text<N>)
    requires { ChargeFits (charge_of charge) × (length out.old + 38 ≤ N) }
    ensures printed { out.new ≡ out.old ++ row clock (charge_of charge) }
    ensures value { length out.new ≡ length out.old + 38 }
{
    print_column(u64::from(charge.ticket), 6, out);
    print_column(u64::from(charge.line), 1, out);
    print_column(u64::from(charge.start), 9, out);
    print_column(end_of(charge.start, charge.time), 9, out);
    if charge.start < clock {
        out.print(b"charging\n");
    } else {
        out.print(b"waiting \n");
    }
}
