// The answers as text, each with its line feed. There is room for an answer where 96 bytes are left, and 21 more for each number
// of the lent list that is printed with it.
#![tactic(auto, unfolding(crate::specs::Answers::answer_text))]

ghost use Rattle.std.specs.Prelude.{◌≡◌, ℕ, ◌+◌, ◌*◌, ◌≤◌, ◌++◌, [], length};
ghost use Rattle.rules.specs.Calls.{refused, looked as looked_answer};
ghost use Rattle.refusals.specs.Refusals.{number_of};
ghost use Rattle.station.specs.Opened.{opened_of, open_answer};
ghost use Rattle.planning.specs.Answers.{planned_of};
ghost use Rattle.site.specs.Answers.{moved_of};
ghost use Rattle.calls.specs.Applied.{told_of, answer_of};
ghost use Rattle.answers.specs.Answers.{answer_text, listed_of, PrintedAlone};

use calls::Answer;
use planning::Planned;
use refusals::Refusal;
use site::clock::Moved;
use station::bounds::Opened;
use text::Text;

fn print_refused<const N: usize>(refusal: Refusal, out: &mut Text<N>)
    requires { length out.old + 96 ≤ N }
    ensures { PrintedAlone (refused (number_of refusal)) out.old out.new }
{
    out.print_fields(&[(b"refused ", u64::from(u32::from(refusal)))]);
}

// The reported pairs stand at the front of the list that was lent to the move.
fn print_moved<const N: usize>(moved: Moved, list: &[u32], out: &mut Text<N>)
    requires { (2 * moved.reported ≤ length list.now) × (length out.old + (96 + 21 * (2 * moved.reported)) ≤ N) }
    ensures { (asked : ℕ) → out.new ≡ out.old ++ answer_text (moved_of moved) asked list.now }
{
    out.print_field(b"moved ", moved.reported as u64);
    out.print_field(b" dropped ", moved.dropped as u64);
    let count = 2 * moved.reported;
    out.print_list(&list[..count]);
    out.print(b"\n");
}

fn print_planned<const N: usize>(planned: Planned, out: &mut Text<N>)
    requires { length out.old + 96 ≤ N }
    ensures { PrintedAlone (planned_of planned) out.old out.new }
{
    out.print_fields(&[
        (b"plan ", u64::from(planned.cause_number())),
        (b" ", planned.before),
        (b" ", planned.after),
        (b" ", u64::from(planned.rounds)),
    ]);
}

// The answers of the tickets asked for stand at the front of the list that was lent to the board.
fn print_looked<const N: usize>(looked: usize, asked: usize, list: &[u32], out: &mut Text<N>)
    requires { (asked ≤ length list.now) × (length out.old + (96 + 21 * asked) ≤ N) }
    ensures { out.new ≡ out.old ++ answer_text (looked_answer looked) asked list.now }
{
    out.print_field(b"board ", looked as u64);
    out.print_list(&list[..asked]);
    out.print(b"\n");
}

// The bounds D of the feeders up to the count: four at most.
fn print_opened<const N: usize>(opened: Opened, out: &mut Text<N>)
    requires { length out.old + 96 ≤ N }
    ensures { PrintedAlone (opened_of opened) out.old out.new }
{
    out.print(b"open 0");
    out.print_list(&opened.bounds[..opened.count.min(4)]);
    out.print(b"\n");
}

pub fn print_opening<const N: usize>(answer: Result<Opened, Refusal>, out: &mut Text<N>)
    requires { length out.old + 96 ≤ N }
    ensures { out.new ≡ out.old ++ answer_text (open_answer answer) 0 [] }
{
    match answer {
        Ok(opened) => print_opened(opened, out),
        Err(refusal) => print_refused(refusal, out),
    }
}

fn print_told<const N: usize>(answer: Answer, asked: usize, list: &[u32], out: &mut Text<N>)
    requires { (listed_of (told_of answer) asked ≤ length list.now) × (length out.old + (96 + 21 * listed_of (told_of answer) asked) ≤ N) }
    ensures { out.new ≡ out.old ++ answer_text (told_of answer) asked list.now }
{
    match answer {
        Answer::Previewed(start) => out.print_fields(&[(b"start ", u64::from(start))]),
        Answer::Committed(committed) => out.print_fields(&[
            (b"ticket ", u64::from(committed.ticket)),
            (b" start ", u64::from(committed.start)),
        ]),
        Answer::Moved(moved) => print_moved(moved, list, out),
        Answer::Planned(planned) => print_planned(planned, out),
        Answer::Waiting { start, rate } => {
            out.print_fields(&[(b"waiting ", u64::from(start)), (b" ", u64::from(rate))]);
        }
        Answer::Charging { start, end, rate } => out.print_fields(&[
            (b"charging ", u64::from(start)),
            (b" ", u64::from(end)),
            (b" ", u64::from(rate)),
        ]),
        Answer::Looked(looked) => print_looked(looked, asked, list, out),
        Answer::Withdrawn => out.print(b"withdrawn\n"),
    }
}

// The answer of any call, with the number of tickets that were asked for and the list that was lent for writing.
pub fn print_answer<const N: usize>(
    answer: Result<Answer, Refusal>,
    asked: usize,
    list: &[u32],
    out: &mut Text<N>,
)
    requires { (listed_of (answer_of answer) asked ≤ length list.now) × (length out.old + (96 + 21 * listed_of (answer_of answer) asked) ≤ N) }
    ensures { out.new ≡ out.old ++ answer_text (answer_of answer) asked list.now }
{
    match answer {
        Ok(told) => print_told(told, asked, list, out),
        Err(refusal) => print_refused(refusal, out),
    }
}
