// Places of held charges: those of the charges that pass a test, and the charges at them.
ghost use Rattle.std.specs.Prelude.{◌≡◌, ◌<◌, Bool, not, length, map};
ghost use Rattle.rules.specs.Charge.{Charge, is_waiting, is_finished, has_ticket, unfinished_charges, without_ticket};
ghost use Rattle.rules.specs.Calls.{is_passed};
ghost use Rattle.charges.specs.Arrays.{charge_at, charges_of, Columns, Holds};
ghost use Rattle.charges.specs.Places.{Tests, places_where};

use crate::Charges;
use crate::ends::end_of;
use crate::places::Places;

impl Charges {
    // The places that pass the test, in the order of the places.
    fn places_where<F: Fn(usize) -> bool>(&self, test: F) -> Places
        requires { (i : _) → i < self.now.held → F.pre test i }
        ensures { (p : Charge → Bool) → Tests (F.post test) self.now p → result ≡ places_where p self.now }
    {
        let mut places = Places::none();
        for i in 0..self.held {
            if test(i) {
                places.push(i);
            }
        }
        places
    }

    // Those of the charges that wait.
    pub fn waiting_places(&self, clock: u32) -> Places
        ensures { result ≡ places_where (is_waiting clock) self.now }
    {
        self.places_where(|i| clock <= self.starts[i])
    }

    // Those of the charges with a start from the clock up to the target.
    pub fn passed_places(&self, clock: u32, target: u32) -> Places
        ensures { result ≡ places_where (is_passed clock target) self.now }
    {
        self.places_where(|i| (clock..target).contains(&self.starts[i]))
    }

    // Those of the charges that are not finished at the clock.
    fn unfinished_places(&self, clock: u32) -> Places
        ensures { result ≡ places_where (λ x. not (is_finished clock x)) self.now }
    {
        self.places_where(|i| u64::from(clock) < end_of(self.starts[i], self.active_times[i]))
    }

    // Those of the charges that are not of the ticket.
    fn other_places(&self, ticket: u32) -> Places
        ensures { result ≡ places_where (λ x. not (has_ticket ticket x)) self.now }
    {
        self.places_where(|i| self.tickets[i] != ticket)
    }

    // The charges at these places. Not inlined, since the charges that are made stand in the frame of the function that makes them.
    #[inline(never)]
    fn at_places(&self, places: &Places) -> Charges
        ensures { Holds (map (charge_at self.now) places.now) result }
    {
        let mut charges = Charges::none();
        for place in places.as_slice() {
            charges.push(self.at(*place));
        }
        charges
    }

    // The charges that are not finished at the clock. Most moves finish none: then nothing is gathered anew.
    pub fn unfinished(&self, clock: u32) -> Charges
        requires { Columns self.now }
        ensures { Holds (unfinished_charges clock (charges_of self.now)) result }
    {
        let kept = self.unfinished_places(clock);
        if kept.len() == self.held {
            return *self;
        }
        self.at_places(&kept)
    }

    // The charges but for that of the ticket.
    pub fn without(&self, ticket: u32) -> Charges
        ensures { Holds (without_ticket ticket (charges_of self.now)) result }
    {
        self.at_places(&self.other_places(ticket))
    }
}
