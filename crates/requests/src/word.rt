// The call that the first word of a request names.
ghost use Rattle.std.specs.Prelude.{◌≡◌};
ghost use Rattle.requests.specs.Words.{named};

// The calls by their first word.
#[derive(Clone, Copy)]
pub enum CallName {
    Open,
    Preview,
    Commit,
    Move,
    Offer,
    Latest,
    Lines,
    Enquire,
    Board,
    Withdraw,
}

pub fn call_named(word: &[u8]) -> Option<CallName>
    ensures { result ≡ named word.now }
{
    match word {
        b"open" => Some(CallName::Open),
        b"preview" => Some(CallName::Preview),
        b"commit" => Some(CallName::Commit),
        b"move" => Some(CallName::Move),
        b"offer" => Some(CallName::Offer),
        b"latest" => Some(CallName::Latest),
        b"lines" => Some(CallName::Lines),
        b"enquire" => Some(CallName::Enquire),
        b"board" => Some(CallName::Board),
        b"withdraw" => Some(CallName::Withdraw),
        _ => None,
    }
}
