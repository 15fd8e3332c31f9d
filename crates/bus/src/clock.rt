// A clock move, with the list lent for its report.
ghost use Rattle.std.specs.Prelude.{[], ◌∷◌};
ghost use Rattle.rules.specs.Calls.{move as move_call};
ghost use Rattle.service.specs.Left.{Leaves};

use calls::Call;
use service::serve;

#[unsafe(no_mangle)]
pub extern "C" fn togbeyis_move(
    image: &mut [u8],
    target: u32,
    report: &mut [u32],
    reported: &mut usize,
    dropped: &mut usize,
    blocks: &mut u32,
) -> u32
    ensures { Leaves (blocks.old ∷ reported.old ∷ dropped.old ∷ []) image.old (move_call target report.old) result (blocks.new ∷ reported.new ∷ dropped.new ∷ []) image.new report.new }
{
    let call = Call::Move { target };
    match serve(image, call, &[], report) {
        Ok(told) => {
            *blocks = told.blocks;
            *reported = told.reported;
            *dropped = told.dropped;
            0
        }
        Err(refusal) => u32::from(refusal),
    }
}
