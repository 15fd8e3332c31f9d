// The program without its input and output: a session goes on turn by turn (`turn`) from the bytes that were read to the text that
// is to be written.
#![tactic(auto)]

pub mod turn;

ghost use Rattle.session.specs.Turns.{EveryChain};
ghost use Rattle.session.specs.LawsOfChains.{EndedRequestsAreAnswered, WholeInputIsAnswered, SmallRunIsAnswered};

/// Turns one after another, whatever was read for each, answer all that was read: at any time every request that has ended, and at the
/// end of the input the whole of it.
#[tactic(auto, using(crate::proofs::Chains::every_chain, crate::proofs::Chains::ended_answered, crate::proofs::Chains::whole_answered))]
pub fn every_chain()
    ensures both { EveryChain }
    ensures so_far { EndedRequestsAreAnswered }
    ensures whole { WholeInputIsAnswered }
{}

/// Four requests worked out by hand: one that is refused, two that are passed over, and a last one without a line feed.
#[tactic(auto, using(crate::proofs::SmallRun::small_run))]
pub fn worked_run()
    ensures { SmallRunIsAnswered }
{}
