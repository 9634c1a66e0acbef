// A line of a history that was read whole: its call waits, or it is due.
#![tactic(auto)]

ghost use Rattle.std.specs.Prelude.{◌≡◌, ◌≤◌};
ghost use Rattle.course.specs.Bounds.{room};
ghost use Rattle.taking.specs.Taking.{Reading, LineTaken, is_due, due_of, PlacedAfter};

use course::memory::{Backlog, ROOM};
use course::{LineSoFar, Place};
use fields::Fault;
use grammar::Line;
use history::take;
use time::Time;
use words::Word;
use words::reason::Reason;

// A look and a fault are done after the calls that wait, so that all is told in its order.
fn is_due(line: Line) -> bool
    ensures { result ≡ is_due line }
{
    matches!(line, Line::Look(_, _) | Line::Wrong(_))
}

fn due_of(line: Line) -> Line
    ensures { result ≡ due_of line }
{
    if is_due(line) { line } else { Line::Nothing }
}

// The place after a line, with its number and the calls that wait then.
#[tactic(auto, using(crate::proofs::Taken::places))]
fn place_after(place: Place, before: Option<Time>, lines: u64, waiting: usize, line: Line) -> Place
    requires { waiting ≤ room }
    ensures { PlacedAfter place before lines waiting line result }
{
    let due = due_of(line);
    Place {
        before,
        lines,
        line: LineSoFar {
            length: 0,
            long: false,
        },
        waiting,
        next: 0,
        due,
        running: is_due(line) | (ROOM <= waiting),
        at: place.at,
    }
}

// A line was read whole. One that is too long is not parsed, and its time does not count.
pub fn take_line(place: Place, backlog: &mut Backlog) -> Place
    requires { Reading place }
    ensures same_line { backlog.new.line ≡ backlog.old.line }
    ensures taken { LineTaken backlog.old.line place backlog.old.calls backlog.old.numbers result backlog.new.calls backlog.new.numbers }
{
    let before = place.before;
    let lines = place.lines.saturating_add(1);
    let waiting = place.waiting;
    if place.line.long {
        let wrong = Line::Wrong(Fault {
            reason: Reason::TooLong,
            place: Word { from: 0, to: 0 },
        });
        return place_after(place, before, lines, waiting, wrong);
    }
    let Backlog {
        calls,
        numbers,
        line,
    } = backlog;
    let bytes: &[u8] = line;
    let taken = take(&bytes[..place.line.length], before, calls, waiting);
    numbers[waiting] = lines;
    let time = taken.before;
    place_after(place, time, lines, taken.waiting, taken.line)
}
