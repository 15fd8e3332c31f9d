// The calls of which the theorem in specs/Theorem.antt speaks: the checker holds it here to the contracts of `open`, `apply` and `make`.
#![tactic(auto)]

pub mod clock_calls;
pub mod every_answer;
pub mod every_call;
pub mod every_enquiry;
pub mod every_minute;
pub mod every_opening;
pub mod every_order;
pub mod every_ticket;
pub mod every_withdrawal;
pub mod image_calls;
pub mod keeping;
pub mod order_calls;
pub mod other_calls;
pub mod plan_calls;
pub mod refused_calls;
pub mod restarting;

ghost use Rattle.station.specs.View.{Valid};
ghost use Rattle.station.specs.Opened.{asked_of};
ghost use Rattle.theorem.specs.Theorem.{MeetsOpen, MeetsApply, made, Theorem};
ghost use Rattle.theorem.specs.Determined.{ViewDetermines};

use calls::{Answer, Call};
use refusals::Refusal;
use station::bounds::Opened;
use station::open::Asked;
use station::{Done, Station};

/// An opening of which the theorem speaks: what `Station::open` gives is what it asks of one.
pub fn open(asked: Asked) -> Done<Result<Opened, Refusal>, Station>
    ensures { MeetsOpen (asked_of asked) result.answer result.station }
{
    Station::open(asked)
}

/// A call of which the theorem speaks, on a station by value: `calls::apply` gives what it asks of one.
pub fn apply(
    station: Station,
    call: Call,
    numbers: &[u32],
    list: &mut [u32],
) -> Done<Result<Answer, Refusal>, Station>
    requires { Valid station }
    ensures { MeetsApply station (made call numbers.now list.old list.new result.answer result.station) }
{
    calls::apply(station, call, numbers, list)
}

/// The same where the station is lent to the call.
pub fn make(
    station: &mut Station,
    call: Call,
    numbers: &[u32],
    list: &mut [u32],
) -> Result<Answer, Refusal>
    requires { Valid station.old }
    ensures { MeetsApply station.old (made call numbers.now list.old list.new result station.new) }
{
    calls::make(station, call, numbers, list)
}

/// Whatever is asked for at the opening, and whatever calls are then made, each on the station that
/// the last one left: every answer and every list is that of the rules, and what they promise holds.
pub fn theorem()
    ensures { Theorem }
{}

/// Two valid stations that show the same are the same: what the rules see of a station is all of it.
#[tactic(auto, using(crate::proofs::Determined::view_determines))]
pub fn view_determines()
    ensures { ViewDetermines }
{}
