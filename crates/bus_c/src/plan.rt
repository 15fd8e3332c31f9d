// Offers and both replans, which end in the same way.
ghost use Rattle.std.specs.Prelude.{[], ◌∷◌};
ghost use Rattle.rules.specs.Calls.{offer as offer_call, replan_latest, replan_lines};
ghost use Rattle.service.specs.Left.{Leaves};
ghost use Rattle.bus.specs.Plans.{TellsPlan};

#[unsafe(no_mangle)]
pub extern "C" fn togbeyis_offer(
    image: &mut [u8],
    feeder: u32,
    starts: &[u32],
    cause: &mut u32,
    before: &mut u64,
    after: &mut u64,
    rounds: &mut u32,
    blocks: &mut u32,
) -> u32
    ensures { Leaves (blocks.old ∷ cause.old ∷ before.old ∷ after.old ∷ rounds.old ∷ []) image.old (offer_call feeder starts.now) result (blocks.new ∷ cause.new ∷ before.new ∷ after.new ∷ rounds.new ∷ []) image.new starts.now }
{
    bus::plan::togbeyis_offer(image, feeder, starts, cause, before, after, rounds, blocks)
}

#[unsafe(no_mangle)]
pub extern "C" fn togbeyis_latest(
    image: &mut [u8],
    feeder: u32,
    cause: &mut u32,
    before: &mut u64,
    after: &mut u64,
    rounds: &mut u32,
    blocks: &mut u32,
) -> u32
    ensures { Leaves (blocks.old ∷ cause.old ∷ before.old ∷ after.old ∷ rounds.old ∷ []) image.old (replan_latest feeder) result (blocks.new ∷ cause.new ∷ before.new ∷ after.new ∷ rounds.new ∷ []) image.new [] }
{
    bus::plan::togbeyis_latest(image, feeder, cause, before, after, rounds, blocks)
}

#[unsafe(no_mangle)]
pub extern "C" fn togbeyis_lines(
    image: &mut [u8],
    feeder: u32,
    allowance: u32,
    cause: &mut u32,
    before: &mut u64,
    after: &mut u64,
    rounds: &mut u32,
    blocks: &mut u32,
) -> u32
    ensures { Leaves (blocks.old ∷ cause.old ∷ before.old ∷ after.old ∷ rounds.old ∷ []) image.old (replan_lines feeder allowance) result (blocks.new ∷ cause.new ∷ before.new ∷ after.new ∷ rounds.new ∷ []) image.new [] }
{
    bus::plan::togbeyis_lines(
        image, feeder, allowance, cause, before, after, rounds, blocks,
    )
}
