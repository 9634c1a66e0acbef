// The file comes in pieces. That it may have more and that no call is run is asked of private functions behind one test: a type that says
// it would be taken apart by the next `match`.
ghost use Rattle.std.specs.Prelude.{◌≡◌, true, false, ◌≤◌, IfOk, OnErr};
ghost use Rattle.session.specs.Pieces.{piece_bytes};
ghost use Rattle.session.specs.Going.{WithPiece, Moves};

use crate::Piece;
use crate::run::Run;
use course::memory::Backlog;
use notices::FileTrouble;
use std::io::Read;
use steps::reading::close;
use telling::Told;
use telling::saying::say_file_trouble;

// A new piece of so many bytes.
fn with_piece(run: Run, have: usize) -> Run
    requires { (run.more ≡ true) × (have ≤ piece_bytes) }
    ensures { WithPiece have run result }
{
    let mut next = run;
    next.place.at = 0;
    next.have = have;
    next
}

// The file has no more.
fn closed(run: Run, backlog: &mut Backlog) -> Run
    requires { (run.place.running ≡ false) × (run.have ≤ run.place.at) × (run.more ≡ true) }
    ensures { Moves run backlog.old result backlog.new }
{
    let mut last = run;
    last.place = close(run.place, backlog);
    last.more = false;
    last
}

// The next piece of the file, or its end. That it can't be read ends the run.
pub fn next_piece<F: Read, S: Print>(
    file: &mut F,
    path: &[u8],
    says: &S,
    run: Run,
    backlog: &mut Backlog,
    piece: &mut Piece,
) -> Result<Run, Told>
    requires { (run.place.running ≡ false) × (run.have ≤ run.place.at) × (run.more ≡ true) }
    ensures moves { IfOk result (λ next. Moves run backlog.old next backlog.new) }
    ensures failed { OnErr result (backlog.new ≡ backlog.old) }
{
    let bytes: &mut [u8] = piece;
    match file.read(bytes) {
        Err(_) => Err(say_file_trouble(says, FileTrouble::NotRead, path)),
        Ok(0) => Ok(closed(run, backlog)),
        Ok(got) => Ok(with_piece(run, got)),
    }
}
