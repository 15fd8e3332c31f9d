// Pages and their rows, from the charges held.
ghost use Rattle.std.specs.Prelude.{◌≡◌, ◌+◌, ◌*◌, ◌≤◌, ◌<◌, ◌++◌, length};
ghost use Rattle.rules.specs.Site.{places};
ghost use Rattle.rules.specs.Basics.{Each};
ghost use Rattle.charges.specs.Arrays.{charges_of};
ghost use Rattle.page.specs.Lined.{ChargeFits, all_fit_prop};
ghost use Rattle.page.specs.Pages.{row_at, rows, page, page_count, pages};

use crate::row::{BLANK, HEADING, print_row};
use charges::Charges;
use text::Text;

// A page has a heading and 24 rows of 38 bytes each, and 180 charges have 8 pages.
pub const MOST_BYTES: usize = 8 * 25 * 38;

// What the wall shows: the charges held, at a clock. None of their numbers exceeds its column.
#[derive(Clone, Copy)]
pub struct Listing<'a> {
    pub clock: u32,
    pub charges: &'a Charges,
    pub ghost fits: { Each ChargeFits (charges_of charges.now) } by { all_fit_prop (charges_of charges.now) },
}

fn page_count(held: usize) -> usize
    requires { held ≤ places }
    ensures { (result ≡ page_count held) × (result ≤ 8) }
{
    held.div_ceil(24).max(1)
}

impl Listing<'_> {
    // Row q of all pages: that of the charge at place q, or an unused one.
    fn print_place<const N: usize>(&self, q: usize, out: &mut Text<N>)
        requires { length out.old + 38 ≤ N }
        ensures printed { out.new ≡ out.old ++ row_at self.now.clock (charges_of self.now.charges.now) q }
        ensures value { length out.new ≡ length out.old + 38 }
    {
        if self.charges.held <= q {
            out.print(BLANK);
        } else {
            print_row(self.charges.at(q), self.clock, out);
        }
    }

    // The 24 rows of page k.
    fn print_rows<const N: usize>(&self, k: usize, out: &mut Text<N>)
        requires { (k < 8) × (length out.old + 912 ≤ N) }
        ensures printed { out.new ≡ out.old ++ rows self.now.clock (charges_of self.now.charges.now) k }
        ensures value { length out.new ≡ length out.old + 912 }
    {
        for i in 0..24 {
            self.print_place(24 * k + i, out);
        }
    }

    // Page k, from 0.
    fn print_page<const N: usize>(&self, k: usize, out: &mut Text<N>)
        requires { (k < 8) × (length out.old + 950 ≤ N) }
        ensures printed { out.new ≡ out.old ++ page self.now.clock (charges_of self.now.charges.now) k }
        ensures value { length out.new ≡ length out.old + 950 }
    {
        out.print(HEADING);
        self.print_rows(k, out);
    }

    // All pages.
    pub fn print_pages<const N: usize>(&self, out: &mut Text<N>)
        requires { length out.old + MOST_BYTES ≤ N }
        ensures { out.new ≡ out.old ++ pages self.now.clock (charges_of self.now.charges.now) }
    {
        for k in 0..page_count(self.charges.held) {
            self.print_page(k, out);
        }
    }
}
