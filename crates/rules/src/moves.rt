// What a move of the clock reports.
ghost use Rattle.rules.specs.laws.Orders.{ReportIsInOrder, MoveToTheClockKeepsAll};

/// A clock move reports the charges that it passes by start, then ticket, each once. A move to the clock itself reports and drops nothing.
#[tactic(auto, using(crate::proofs::Reporting::report_order, crate::proofs::Reporting::move_to_the_clock))]
pub fn clock_moves()
    ensures in_order { ReportIsInOrder }
    ensures to_the_clock { MoveToTheClockKeepsAll }
{}
