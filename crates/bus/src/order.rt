// An order, previewed and committed.
ghost use Rattle.std.specs.Prelude.{[], ◌∷◌};
ghost use Rattle.rules.specs.Calls.{preview as preview_call, commit as commit_call};
ghost use Rattle.service.specs.Left.{Leaves};

use calls::Call;
use ordering::Order;
use service::serve_alone;

#[unsafe(no_mangle)]
pub extern "C" fn togbeyis_preview(
    image: &mut [u8],
    feeder: u32,
    line: u32,
    time: u32,
    due: u32,
    rate: u32,
    start: &mut u32,
    blocks: &mut u32,
) -> u32
    ensures { Leaves (blocks.old ∷ start.old ∷ []) image.old (preview_call feeder line time due rate) result (blocks.new ∷ start.new ∷ []) image.new [] }
{
    let order = Order {
        feeder,
        line,
        time,
        due,
        rate,
    };
    let call = Call::Preview { order };
    match serve_alone(image, call) {
        Ok(told) => {
            *blocks = told.blocks;
            *start = told.start;
            0
        }
        Err(refusal) => u32::from(refusal),
    }
}

#[unsafe(no_mangle)]
pub extern "C" fn togbeyis_commit(
    image: &mut [u8],
    feeder: u32,
    line: u32,
    time: u32,
    due: u32,
    rate: u32,
    shown: u32,
    ticket: &mut u32,
    start: &mut u32,
    blocks: &mut u32,
) -> u32
    ensures { Leaves (blocks.old ∷ ticket.old ∷ start.old ∷ []) image.old (commit_call feeder line time due rate shown) result (blocks.new ∷ ticket.new ∷ start.new ∷ []) image.new [] }
{
    let order = Order {
        feeder,
        line,
        time,
        due,
        rate,
    };
    let call = Call::Commit { order, shown };
    match serve_alone(image, call) {
        Ok(told) => {
            *blocks = told.blocks;
            *ticket = told.ticket;
            *start = told.start;
            0
        }
        Err(refusal) => u32::from(refusal),
    }
}
