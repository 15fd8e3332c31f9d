// An enquiry, whose answer has to be taken apart before a start can be read.
ghost use Rattle.std.specs.Prelude.{◌≡◌, []};
ghost use Rattle.rules.specs.Calls.{told as told_of, enquire as enquire_call, step};
ghost use Rattle.charges.specs.Arrays.{charge_of};
ghost use Rattle.charges.specs.Held.{Small};
ghost use Rattle.station.specs.View.{view, Valid};
ghost use Rattle.station.specs.Given.{Keeps};
ghost use Rattle.site.specs.Answers.{told_charge, enquiry_answer};

use charges::Charge;
use station::Station;

// What is told of a ticket: of the charge that has it, or that no held charge has it, which is refusal 15.
#[derive(Clone, Copy)]
pub enum Enquiry {
    Waiting { start: u32, rate: u32 },
    Charging { start: u32, end: u32, rate: u32 },
    NotHeld,
}

impl Enquiry {
    // What is told of a charge. A start equal to the clock still waits.
    pub fn of(charge: Charge, clock: u32) -> Enquiry
        requires { Small (charge_of charge) }
        ensures { enquiry_answer result ≡ told_charge clock (charge_of charge) }
    {
        if charge.start < clock {
            Enquiry::Charging {
                start: charge.start,
                end: charge.start + charge.time,
                rate: charge.rate,
            }
        } else {
            Enquiry::Waiting {
                start: charge.start,
                rate: charge.rate,
            }
        }
    }
}

// Of the feeder that holds the ticket.
pub fn enquire(station: &Station, ticket: u32) -> Enquiry
    requires { Valid station.now }
    ensures { Keeps (step (view station.now) (enquire_call ticket)) station.now (enquiry_answer result) [] }
{
    let Some(holder) = station.holder(ticket) else {
        return Enquiry::NotHeld;
    };
    let held = &station.feeders[holder.feeder].charges;
    Enquiry::of(held.at(holder.place), station.clock)
}
