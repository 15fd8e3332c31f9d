// The charges of a feeder, record by record.
ghost use Rattle.std.specs.Prelude.{◌≡◌, ◌<◌, length};
ghost use Rattle.layout.specs.Lists.{every};
ghost use Rattle.layout.specs.Validity.{record_right};
ghost use Rattle.validity.specs.Settled.{held_by, single, Settled, ticket_rises};

use crate::ranges::charge_right;
use station::only::One;

// "Tickets, the next one last, are 1 or more and rise."
#[tactic(auto, unfolding(crate::specs::Settled::ticket_rises))]
fn ticket_rises(tickets: &[u32], next: u32, q: usize) -> bool
    requires { q < length tickets.now }
    ensures { result ≡ ticket_rises tickets.now next q }
{
    let ticket = tickets[q];
    let after = tickets.get(q + 1).copied().unwrap_or(next);
    1 <= ticket && ticket < after
}

// Whether record q is right: its ticket, its fields and its times.
#[tactic(auto, using(crate::proofs::Settling::record_told))]
fn record_right(one: &One, q: usize) -> bool
    requires { Settled one.now × (q < (held_by one.now).held) }
    ensures { result ≡ record_right (single one.now) q }
{
    let charges = &one.feeder.charges;
    let tickets = &charges.tickets[..charges.held];
    ticket_rises(tickets, one.next, q) && charge_right(&charges.at(q), one)
}

// Whether each record is right.
pub fn records_right(one: &One) -> bool
    requires { Settled one.now }
    ensures { result ≡ every (record_right (single one.now)) (held_by one.now).held }
{
    (0..one.feeder.charges.held).all(|q| record_right(one, q))
}
