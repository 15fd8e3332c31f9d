// An enquiry. Of a waiting charge no end is told, so that `end` stays.
ghost use Rattle.std.specs.Prelude.{[], ◌∷◌};
ghost use Rattle.rules.specs.Calls.{enquire as enquire_call};
ghost use Rattle.service.specs.Left.{Leaves};

use calls::Call;
use service::serve_alone;

#[unsafe(no_mangle)]
pub extern "C" fn togbeyis_enquire(
    image: &mut [u8],
    ticket: u32,
    charging: &mut u32,
    start: &mut u32,
    rate: &mut u32,
    end: &mut u32,
    blocks: &mut u32,
) -> u32
    ensures { Leaves (blocks.old ∷ charging.old ∷ start.old ∷ rate.old ∷ end.old ∷ []) image.old (enquire_call ticket) result (blocks.new ∷ charging.new ∷ start.new ∷ rate.new ∷ end.new ∷ []) image.new [] }
{
    let call = Call::Enquire { ticket };
    match serve_alone(image, call) {
        Ok(told) => {
            *blocks = told.blocks;
            *charging = u32::from(told.end.is_some());
            *start = told.start;
            *rate = told.rate;
            if let Some(until) = told.end {
                *end = until;
            }
            0
        }
        Err(refusal) => u32::from(refusal),
    }
}
