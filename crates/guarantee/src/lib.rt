// What is guaranteed about the rules: statements in specs/, proofs in proofs/. Each clause of a function here is a law; nothing runs.
#![tactic(auto)]

ghost use Rattle.guarantee.specs.Demands.{
  OpeningsAreAnswered,
  CallsAreAnswered,
  PlansAreRight,
  OrdersAreKept,
  AnyCallIsAnswered,
  AnyPlanIsRight,
  AnyOrderIsKept,
};

pub mod by_hand;
pub mod laws;

/// Whatever an opening asks for and whatever calls follow: what is refused and with which number, what plans and orders get, and
/// what each accepted order can rely on.
#[tactic(auto, using(crate::proofs::Demands::demands))]
pub fn demands_hold()
    ensures one_opening { OpeningsAreAnswered }
    ensures one { CallsAreAnswered }
    ensures two { PlansAreRight }
    ensures three { OrdersAreKept }
{}

/// The same of any valid station that calls begin with, from an image say: limit, balance and site limit hold from its clock on.
pub fn any_station_keeps_them()
    ensures one { AnyCallIsAnswered }
    ensures two { AnyPlanIsRight }
    ensures three { AnyOrderIsKept }
{}
