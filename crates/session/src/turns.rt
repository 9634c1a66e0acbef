// A run goes on turn by turn: a step, or a new piece.
ghost use Rattle.std.specs.Prelude.{◌≡◌, IfOk, OnErr};
ghost use Rattle.lent.specs.Views.{memory_at};
ghost use Rattle.course.specs.Views.{SameBench};
ghost use Rattle.session.specs.Going.{Goes, GoesSome, CanStep, reader_in};

use crate::Piece;
use crate::pieces::next_piece;
use crate::run::Run;
use crate::stepping::next_step;
use course::memory::{Backlog, Bench};
use course::{Manner, Ongoing};
use std::io::Read;
use telling::{Outlets, Told};

// Whether calls are being run, or bytes of the piece are left.
fn can_step(run: Run) -> bool
    ensures { CanStep run result }
{
    run.place.running | (run.place.at < run.have)
}

// A step where one can be taken, else a piece where the file may have one. A piece that can't be read changes nothing. A file and its path
// stay two, as only what is said of a failure takes the second; so do backlog and piece, as steps work on the first and know of no file.
fn turn<R: Print + Eprint, F: Read, S: Print>(
    outlets: Outlets<R, S>,
    file: &mut F,
    path: &[u8],
    manner: Manner,
    run: Run,
    bench: &mut Bench,
    backlog: &mut Backlog,
    piece: &mut Piece,
) -> Result<Run, Told>
    ensures same { SameBench bench.old bench.new }
    ensures goes { IfOk result (λ after. Goes manner run.more after.more (reader_in manner run backlog.old (memory_at bench.old.memory) bench.old.events.now) (reader_in manner after backlog.new (memory_at bench.new.memory) bench.new.events.now)) }
    ensures failed { OnErr result ((bench.new ≡ bench.old) × (backlog.new ≡ backlog.old)) }
{
    let Some(ongoing) = Ongoing::of(run.course, manner) else {
        return Ok(run);
    };
    if can_step(run) {
        Ok(next_step(outlets, run, ongoing, bench, backlog, piece))
    } else if run.more {
        next_piece(file, path, outlets.says, run, backlog, piece)
    } else {
        Ok(run)
    }
}

// Whether no turn does anything any more.
fn is_over(run: Run) -> bool {
    run.course.stopped | (!run.more & !run.place.running)
}

// Turn after turn, up to a read that fails. A proved loop has to end, and nothing says that a file does, so the turns are counted.
pub fn take_turns<R: Print + Eprint, F: Read, S: Print>(
    outlets: Outlets<R, S>,
    file: &mut F,
    path: &[u8],
    manner: Manner,
    run: Run,
    bench: &mut Bench,
    backlog: &mut Backlog,
    piece: &mut Piece,
) -> Result<Run, Told>
    ensures same { SameBench bench.old bench.new }
    ensures goes { IfOk result (λ after. Goes manner run.more after.more (reader_in manner run backlog.old (memory_at bench.old.memory) bench.old.events.now) (reader_in manner after backlog.new (memory_at bench.new.memory) bench.new.events.now)) }
    ensures failed { OnErr result (GoesSome manner run.more (reader_in manner run backlog.old (memory_at bench.old.memory) bench.old.events.now) backlog.new (memory_at bench.new.memory) bench.new.events.now) }
{
    let mut r = run;
    for _ in 0..u64::MAX {
        r = turn(outlets, file, path, manner, r, bench, backlog, piece)?;
        if is_over(r) {
            break;
        }
    }
    Ok(r)
}
