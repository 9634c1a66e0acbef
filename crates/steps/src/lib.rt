// A run goes step by step on lent memory: bytes are moved to a line, a whole line is taken, the calls that wait are run up to one that has
// something to tell, the line that is due is done. After each step the caller writes what it said. How the text is cut into pieces makes no
// difference.
#![tactic(auto)]

ghost use Rattle.std.specs.Prelude.{◌≤◌, length};
ghost use Rattle.lent.specs.Views.{memory_at};
ghost use Rattle.course.specs.Views.{desk_on, SameBench};
ghost use Rattle.steps.specs.Stepping.{Steps};

use crate::reading::read_lines;
use crate::waiting::run_on;
use course::memory::{Backlog, Bench};
use course::{Noted, Ongoing, Place};

mod due;
mod places;
pub mod reading;
mod waiting;

// What a step came to, its text at the start of the lent bytes, and where the run stands then.
#[derive(Clone, Copy)]
pub struct Stepped {
    pub noted: Noted,
    pub place: Place,
}

// The next step: what waits is done where it is to be, else bytes of the piece are read.
// What goes on and the place stay two: a call is noted by what goes on alone, and bytes are read by the place alone.
#[tactic(auto, using(crate::proofs::Desks::moved))]
pub fn step(
    ongoing: Ongoing,
    place: Place,
    bench: &mut Bench,
    backlog: &mut Backlog,
    piece: &[u8],
) -> Stepped
    requires { place.at ≤ length piece.now }
    ensures same { SameBench bench.old bench.new }
    ensures steps { Steps ongoing.manner place backlog.old piece.now (desk_on ongoing.course bench.old) result.place backlog.new result.noted (memory_at bench.new.memory) bench.new.events.now bench.old.out.now bench.new.out.now }
{
    if place.running {
        run_on(ongoing, place, bench, backlog)
    } else {
        Stepped {
            noted: Noted::quiet(ongoing.course, 0),
            place: read_lines(place, piece, backlog),
        }
    }
}
