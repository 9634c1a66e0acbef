// One step of a run with the bytes of a piece, and what it said.
ghost use Rattle.std.specs.Prelude.{◌≡◌, false, ◌<◌, length, take};
ghost use Rattle.lent.specs.Views.{memory_at};
ghost use Rattle.course.specs.Views.{desk_on, SameBench};
ghost use Rattle.steps.specs.Stepping.{Steps, reader_of};
ghost use Rattle.session.specs.Going.{Goes, reader_in};

use crate::Piece;
use crate::complaints::tell;
use crate::run::Run;
use course::Ongoing;
use course::memory::{Backlog, Bench};
use steps::{Stepped, step};
use telling::Outlets;
use telling::saying::say_progress;

// Progress is told each time that so many lines were read, more than a piece has.
const MANY: u64 = 100000;

// One step with the bytes of the piece.
fn step_in_piece(
    run: Run,
    ongoing: Ongoing,
    bench: &mut Bench,
    backlog: &mut Backlog,
    piece: &Piece,
) -> Stepped
    ensures same { SameBench bench.old bench.new }
    ensures long { length (take run.have piece.now) ≡ run.have }
    ensures steps { Steps ongoing.manner run.place backlog.old (take run.have piece.now) (desk_on ongoing.course bench.old) result.place backlog.new result.noted (memory_at bench.new.memory) bench.new.events.now bench.old.out.now bench.new.out.now }
{
    step(ongoing, run.place, bench, backlog, &piece[..run.have])
}

// Progress is told where a multiple of so many lines was passed.
fn note_lines<R: Eprint>(rt: &R, before: u64, after: u64) {
    let passed = after / MANY;
    if before / MANY != passed {
        say_progress(rt, passed * MANY);
    }
}

// The next step, and what it said.
#[tactic(auto, using(crate::proofs::Gone::still_inside))]
pub fn next_step<R: Print + Eprint, S: Print>(
    outlets: Outlets<R, S>,
    run: Run,
    ongoing: Ongoing,
    bench: &mut Bench,
    backlog: &mut Backlog,
    piece: &Piece,
) -> Run
    requires { run.place.running ≡ false → run.place.at < run.have }
    ensures same { SameBench bench.old bench.new }
    ensures goes { Goes ongoing.manner run.more result.more (reader_of ongoing.manner run.place backlog.old (desk_on ongoing.course bench.old)) (reader_in ongoing.manner result backlog.new (memory_at bench.new.memory) bench.new.events.now) }
{
    let s = step_in_piece(run, ongoing, bench, backlog, piece);
    let out = &mut *bench.out;
    tell(outlets, ongoing.manner.go_on, out, s.noted, &backlog.line);
    note_lines(outlets.rt, run.place.lines, s.place.lines);
    let mut after = run;
    after.course = s.noted.course;
    after.place = s.place;
    after
}
