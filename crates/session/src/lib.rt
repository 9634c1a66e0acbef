// The history's file is read in pieces and run step by step, so memory does not grow with it. What each step said is written at once.
#![tactic(auto)]

ghost use Rattle.std.specs.Prelude.{◌≡◌, false, IfOk};
ghost use Rattle.lent.specs.Views.{memory_at};
ghost use Rattle.course.specs.Views.{desk_on, SameBench};
ghost use Rattle.session.specs.Going.{Begins, ReadWhole};

use crate::run::Run;
use crate::turns::take_turns;
use course::memory::{Backlog, Bench, LONGEST, NUMBERS, ROOM};
use course::{Course, LineSoFar, Manner, Place};
use grammar::Line;
use std::io;
use std::rt::Files;
use telling::reading::opened;
use telling::{Outlets, Told};

mod complaints;
pub mod desk;
mod pieces;
pub mod run;
mod stepping;
mod turns;

// The size of a piece.
const PIECE: usize = 65536;

pub type Piece = [u8; PIECE];

// Nothing is read yet.
#[tactic(auto, unfolding(course::specs::Desk::called_all, course::specs::Desk::numbered_from))]
fn beginning(course: Course) -> Run
    ensures { Begins course result }
{
    Run {
        course,
        place: Place {
            before: None,
            lines: 0,
            line: LineSoFar {
                length: 0,
                long: false,
            },
            waiting: 0,
            next: 0,
            due: Line::Nothing,
            running: false,
            at: 0,
        },
        have: 0,
        more: true,
    }
}

// The course, if the text was read up to its end and all was done. What ended a run before was told as it happened.
fn whole(run: Run) -> Result<Course, Told>
    ensures { IfOk result (λ after. (after ≡ run.course) × (run.course.stopped ≡ false) × (run.more ≡ false) × (run.place.running ≡ false)) }
{
    if run.course.stopped | run.more | run.place.running {
        return Err(Told);
    }
    Ok(run.course)
}

// Runs the open file's text on the flash in lent memory, and gives the course if the file was read whole.
fn read_file<R: Print + Eprint, F: io::Read, S: Print>(
    outlets: Outlets<R, S>,
    file: &mut F,
    path: &[u8],
    manner: Manner,
    course: Course,
    bench: &mut Bench,
) -> Result<Course, Told>
    ensures same { SameBench bench.old bench.new }
    ensures whole { IfOk result (λ after. ReadWhole manner (desk_on course bench.old) after (memory_at bench.new.memory) bench.new.events.now) }
{
    let mut backlog = Backlog {
        calls: [0; NUMBERS * ROOM],
        numbers: [0; ROOM],
        line: [0; LONGEST],
    };
    let mut piece = [0u8; PIECE];
    let run = take_turns(
        outlets,
        file,
        path,
        manner,
        beginning(course),
        bench,
        &mut backlog,
        &mut piece,
    )?;
    whole(run)
}

// Runs the history in a file on the flash in lent memory, and gives the course of the run if the file was read whole and all calls in it
// were run. What it says goes to standard output, its complaints to the writer that is lent for them.
pub fn read_history<R: Files + Print + Eprint, S: Print>(
    outlets: Outlets<R, S>,
    path: &[u8],
    manner: Manner,
    course: Course,
    bench: &mut Bench,
) -> Result<Course, Told>
    ensures same { SameBench bench.old bench.new }
    ensures whole { IfOk result (λ after. ReadWhole manner (desk_on course bench.old) after (memory_at bench.new.memory) bench.new.events.now) }
{
    let mut file = opened(outlets, path)?;
    read_file(outlets, &mut file, path, manner, course, bench)
}
