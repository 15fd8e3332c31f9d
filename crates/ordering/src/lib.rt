// An order, which is previewed and committed: the smallest start with which the held plan and the new charge are sound together.
#![tactic(auto)]

pub mod commit;
pub mod refusal;
pub mod start;

ghost use Rattle.std.specs.Prelude.{◌≡◌};
ghost use Rattle.ordering.specs.Ordered.{order_from};

use station::open::number_or_zero;

// What an order names: its feeder, from 1, line, charging time p, due minute d and rate.
#[derive(Clone, Copy)]
pub struct Order {
    pub feeder: u32,
    pub line: u32,
    pub time: u32,
    pub due: u32,
    pub rate: u32,
}

impl Order {
    // Its numbers in their order. Those that are not given count as 0.
    pub fn from_numbers(numbers: &[u32]) -> Order
        ensures { result ≡ order_from numbers.now }
    {
        Order {
            feeder: number_or_zero(numbers, 0),
            line: number_or_zero(numbers, 1),
            time: number_or_zero(numbers, 2),
            due: number_or_zero(numbers, 3),
            rate: number_or_zero(numbers, 4),
        }
    }
}
