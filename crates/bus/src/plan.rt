// Offers and both replans, which end in the same way.
ghost use Rattle.std.specs.Prelude.{[], ◌∷◌};
ghost use Rattle.rules.specs.Calls.{offer as offer_call, replan_latest, replan_lines};
ghost use Rattle.service.specs.Left.{Leaves};
ghost use Rattle.bus.specs.Plans.{TellsPlan};

use calls::Call;
use refusals::Refusal;
use service::numbers::Numbers;
use service::{serve, serve_alone};

// Tells what was planned, or leaves everything where it was refused.
fn tell_plan(
    told: Result<Numbers, Refusal>,
    cause: &mut u32,
    before: &mut u64,
    after: &mut u64,
    rounds: &mut u32,
    blocks: &mut u32,
) -> u32
    ensures { TellsPlan told (blocks.old ∷ cause.old ∷ before.old ∷ after.old ∷ rounds.old ∷ []) result (blocks.new ∷ cause.new ∷ before.new ∷ after.new ∷ rounds.new ∷ []) }
{
    match told {
        Ok(told) => {
            *blocks = told.blocks;
            *cause = told.cause;
            *before = told.before;
            *after = told.after;
            *rounds = told.rounds;
            0
        }
        Err(refusal) => u32::from(refusal),
    }
}

#[unsafe(no_mangle)]
pub extern "C" fn togbeyis_offer(
    image: &mut [u8],
    feeder: u32,
    starts: &[u32],
    cause: &mut u32,
    before: &mut u64,
    after: &mut u64,
    rounds: &mut u32,
    blocks: &mut u32,
) -> u32
    ensures { Leaves (blocks.old ∷ cause.old ∷ before.old ∷ after.old ∷ rounds.old ∷ []) image.old (offer_call feeder starts.now) result (blocks.new ∷ cause.new ∷ before.new ∷ after.new ∷ rounds.new ∷ []) image.new starts.now }
{
    let call = Call::Offer { feeder };
    let offered = serve(image, call, starts, &mut []);
    tell_plan(offered, cause, before, after, rounds, blocks)
}

#[unsafe(no_mangle)]
pub extern "C" fn togbeyis_latest(
    image: &mut [u8],
    feeder: u32,
    cause: &mut u32,
    before: &mut u64,
    after: &mut u64,
    rounds: &mut u32,
    blocks: &mut u32,
) -> u32
    ensures { Leaves (blocks.old ∷ cause.old ∷ before.old ∷ after.old ∷ rounds.old ∷ []) image.old (replan_latest feeder) result (blocks.new ∷ cause.new ∷ before.new ∷ after.new ∷ rounds.new ∷ []) image.new [] }
{
    let call = Call::ReplanLatest { feeder };
    let latest = serve_alone(image, call);
    tell_plan(latest, cause, before, after, rounds, blocks)
}

#[unsafe(no_mangle)]
pub extern "C" fn togbeyis_lines(
    image: &mut [u8],
    feeder: u32,
    allowance: u32,
    cause: &mut u32,
    before: &mut u64,
    after: &mut u64,
    rounds: &mut u32,
    blocks: &mut u32,
) -> u32
    ensures { Leaves (blocks.old ∷ cause.old ∷ before.old ∷ after.old ∷ rounds.old ∷ []) image.old (replan_lines feeder allowance) result (blocks.new ∷ cause.new ∷ before.new ∷ after.new ∷ rounds.new ∷ []) image.new [] }
{
    let call = Call::ReplanLines { feeder, allowance };
    let lines = serve_alone(image, call);
    tell_plan(lines, cause, before, after, rounds, blocks)
}
