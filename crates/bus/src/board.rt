// The board: the starts of the tickets asked for, written to a lent list.
ghost use Rattle.std.specs.Prelude.{[], ◌∷◌};
ghost use Rattle.rules.specs.Calls.{board as board_call};
ghost use Rattle.service.specs.Left.{Leaves};

use calls::Call;
use service::serve;

#[unsafe(no_mangle)]
pub extern "C" fn togbeyis_board(
    image: &mut [u8],
    asked: &[u32],
    answers: &mut [u32],
    looked: &mut usize,
    blocks: &mut u32,
) -> u32
    ensures { Leaves (blocks.old ∷ looked.old ∷ []) image.old (board_call asked.now answers.old) result (blocks.new ∷ looked.new ∷ []) image.new answers.new }
{
    match serve(image, Call::Board, asked, answers) {
        Ok(told) => {
            *blocks = told.blocks;
            *looked = told.looked;
            0
        }
        Err(refusal) => u32::from(refusal),
    }
}
