// The course of a run: what was counted, and how it changes when calls are made, when one is refused, and when a line is left out.
#![tactic(auto)]

ghost use Rattle.std.specs.Prelude.{◌≡◌, ◌≤◌, ◌<◌, true, false, [], MatchOption};
ghost use Rattle.grammar.specs.declared.Line.TheVariants.{Nothing};
ghost use Rattle.history.specs.History.{calls_of};
ghost use Rattle.course.specs.Bounds.{longest, room};
ghost use Rattle.course.specs.Course.{with_calls, quiet, complained, begun_at};

use fields::Fault;
use grammar::Line;
use refusal::Refusal;
use settle::tally::Tally;
use time::Time;
use verdict::Counts;

pub mod memory;

// How a run is told: whether events and answers are, and whether it goes on after what can't be taken.
#[derive(Clone, Copy)]
pub struct Manner {
    pub events: bool,
    pub go_on: bool,
}

// What was counted, the time of the last call made, and whether the run has ended early.
#[derive(Clone, Copy)]
pub struct Course {
    pub counts: Counts,
    pub last: Time,
    pub stopped: bool,
}

// A course that has not ended early, and how the run is told.
#[derive(Clone, Copy)]
pub struct Ongoing {
    pub course: Course,
    pub manner: Manner,
    pub ghost goes_on: { course.stopped ≡ false },
}

// What a run complains of, with the number of its line: a refused call, a refused look, a line that can't be taken.
#[derive(Clone, Copy)]
pub enum Complaint {
    Refused(u64, Refusal),
    Unseen(u64, Refusal),
    Wrong(u64, Fault),
}

// What a call, a look or a line came to: the course after it, what is complained of, and where the text that is said ends.
// The end stands beside no slice: a `Noted` is a copied value, which outlives the loan of the bytes that the text is put into.
#[derive(Clone, Copy)]
pub struct Noted {
    pub course: Course,
    pub complaint: Option<Complaint>,
    pub end: usize,
}

// The line so far: how many of its bytes are kept, and whether it is too long.
#[derive(Clone, Copy)]
pub struct LineSoFar {
    pub length: usize,
    pub long: bool,
    pub ghost fits: { length ≤ longest },
}

// Where a run stands in its text. No call is due, since calls wait. While none of them is run, another may wait and no line is due.
// How much of a Backlog is in use stands here and not in it: the definitions of steps go by a place, a value, and a Backlog is lent.
#[derive(Clone, Copy)]
pub struct Place {
    // The time that a `+` counts from, and how many lines were read.
    pub before: Option<Time>,
    pub lines: u64,
    // The line that is not yet read whole.
    pub line: LineSoFar,
    // How many calls were read since calls were run last, and the first of them that is not yet run.
    pub waiting: usize,
    pub next: usize,
    // A line to be done when none of them waits any more.
    pub due: Line,
    // Whether they are being run, so that no line is read.
    pub running: bool,
    // The next byte of the piece.
    pub at: usize,
    pub ghost calls_fit: { waiting ≤ room },
    pub ghost run_so_far: { next ≤ waiting },
    pub ghost due_no_call: { calls_of due ≡ [] },
    pub ghost has_room: { running ≡ false → waiting < room },
    pub ghost none_run: { running ≡ false → next ≡ 0 },
    pub ghost none_due: { running ≡ false → due ≡ Nothing },
}

impl Noted {
    // Nothing is complained of: the text that is said ends here.
    pub fn quiet(course: Course, end: usize) -> Noted
        ensures { result ≡ quiet course end }
    {
        Noted {
            course,
            complaint: None,
            end,
        }
    }
}

impl Ongoing {
    // A course that may have ended early.
    pub fn of(course: Course, manner: Manner) -> Option<Ongoing>
        ensures { MatchOption result (course.stopped ≡ true) (λ ongoing. (ongoing.course ≡ course) × (ongoing.manner ≡ manner)) }
    {
        if course.stopped {
            return None;
        }
        Some(Ongoing { course, manner })
    }
}

// Nothing is read yet, and the flash is as it was left at a time.
pub fn begun(last: Time) -> Course
    ensures { result ≡ begun_at last }
{
    Course {
        counts: Counts::default(),
        last,
        stopped: false,
    }
}

// So many more calls were made, the last at a time; the tally is counted by the caller. Counts stay at the largest number, which no file
// reaches.
pub fn with_calls(course: Course, calls: u64, last: Time, tally: Tally) -> Course
    ensures { result ≡ with_calls calls last tally course }
{
    Course {
        counts: Counts {
            made: course.counts.made.saturating_add(calls),
            tally,
            ..course.counts
        },
        last,
        ..course
    }
}

// A call was refused and changed nothing, or a look or a line can't be taken. Without --go-on it ends the run.
pub fn complained(course: Course, go_on: bool, complaint: Complaint) -> Noted
    ensures { result ≡ complained go_on complaint course }
{
    let mut after = course;
    match complaint {
        Complaint::Refused(_, _) => after.counts.refused = course.counts.refused.saturating_add(1),
        Complaint::Unseen(_, _) | Complaint::Wrong(_, _) => {
            after.counts.left_out = course.counts.left_out.saturating_add(1)
        }
    }
    after.stopped = !go_on;
    Noted {
        course: after,
        complaint: Some(complaint),
        end: 0,
    }
}
