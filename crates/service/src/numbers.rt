// An answer in numbers, each by its name, so that what calls a call need not tell one kind of answer from another.
ghost use Rattle.calls.specs.Applied.{told_of};
ghost use Rattle.service.specs.Named.{Tells};

use calls::Answer;

// How many blocks of the image changed; then the numbers of an answer, each 0 where the answer has none of its name. An end is told
// of a charge that charges, and of no other.
#[derive(Clone, Copy, Default)]
pub struct Numbers {
    pub blocks: u32,
    pub ticket: u32,
    pub start: u32,
    pub rate: u32,
    pub end: Option<u32>,
    pub cause: u32,
    pub before: u64,
    pub after: u64,
    pub rounds: u32,
    pub reported: usize,
    pub dropped: usize,
    pub looked: usize,
}

impl From<Answer> for Numbers {
    ghost from_gives = { λ a n. Tells (told_of a) n };

    fn from(answer: Answer) -> Numbers {
        match answer {
            Answer::Previewed(start) => Numbers {
                start,
                ..Numbers::default()
            },
            Answer::Committed(committed) => Numbers {
                ticket: committed.ticket,
                start: committed.start,
                ..Numbers::default()
            },
            Answer::Moved(moved) => Numbers {
                reported: moved.reported,
                dropped: moved.dropped,
                ..Numbers::default()
            },
            Answer::Planned(planned) => Numbers {
                cause: planned.cause_number(),
                before: planned.before,
                after: planned.after,
                rounds: planned.rounds,
                ..Numbers::default()
            },
            Answer::Waiting { start, rate } => Numbers {
                start,
                rate,
                ..Numbers::default()
            },
            Answer::Charging { start, end, rate } => Numbers {
                start,
                rate,
                end: Some(end),
                ..Numbers::default()
            },
            Answer::Looked(looked) => Numbers {
                looked,
                ..Numbers::default()
            },
            Answer::Withdrawn => Numbers::default(),
        }
    }
}
