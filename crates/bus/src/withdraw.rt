// A withdrawal, whose answer has no number.
ghost use Rattle.std.specs.Prelude.{[], ◌∷◌};
ghost use Rattle.rules.specs.Calls.{withdraw as withdraw_call};
ghost use Rattle.service.specs.Left.{Leaves};

use calls::Call;
use service::serve_alone;

#[unsafe(no_mangle)]
pub extern "C" fn togbeyis_withdraw(image: &mut [u8], ticket: u32, blocks: &mut u32) -> u32
    ensures { Leaves (blocks.old ∷ []) image.old (withdraw_call ticket) result (blocks.new ∷ []) image.new [] }
{
    let call = Call::Withdraw { ticket };
    match serve_alone(image, call) {
        Ok(told) => {
            *blocks = told.blocks;
            0
        }
        Err(refusal) => u32::from(refusal),
    }
}
