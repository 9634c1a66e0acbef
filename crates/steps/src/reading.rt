// The bytes of a text are read.
// That a place is not running is asked behind one test, at each turn anew: a type for it would be taken apart again by the next match.
ghost use Rattle.std.specs.Prelude.{◌≡◌, true, false, ◌≤◌, ◌<◌, length};
ghost use Rattle.steps.specs.Stepping.{Reads, Closes};

use crate::places::to_run;
use course::Place;
use course::memory::Backlog;
use feeding::feed;
use taking::take_line;

// The next bytes of the piece, up to the end of a line or of the piece.
#[tactic(auto, using(crate::proofs::Lines::lines))]
fn read_on(place: Place, piece: &[u8], backlog: &mut Backlog) -> Place
    requires { (place.running ≡ false) × (place.at < length piece.now) }
    ensures { (place.at < result.at) × Reads place backlog.old piece.now result backlog.new }
{
    let fed = feed(place.line, piece, place.at, &mut backlog.line);
    let mut p = place;
    p.line = fed.line;
    p.at = fed.at;
    if fed.ended {
        return take_line(p, backlog);
    }
    p
}

// Whether bytes are left to be read before what waits is done.
fn reads_on(place: Place, have: usize) -> bool
    ensures { result ≡ true → (place.running ≡ false) × (place.at < have) }
{
    !place.running & (place.at < have)
}

// All bytes of the piece, or those up to a line after which what waits is to be done.
pub fn read_lines(place: Place, piece: &[u8], backlog: &mut Backlog) -> Place
    requires { place.at ≤ length piece.now }
    ensures { Reads place backlog.old piece.now result backlog.new }
{
    let mut p = place;
    // No for: a turn goes to the end of a line, and the last one before the piece has ended.
    while reads_on(p, piece.len()) {
        p = read_on(p, piece, backlog);
    }
    p
}

// The text has no more: a last line without its end counts, and what waits is to be run.
#[tactic(auto, using(crate::proofs::Lines::lines))]
pub fn close(place: Place, backlog: &mut Backlog) -> Place
    requires { place.running ≡ false }
    ensures same_line { backlog.new.line ≡ backlog.old.line }
    ensures closes { Closes place backlog.old result backlog.new }
{
    if backlog.line[..place.line.length].is_empty() {
        to_run(place)
    } else {
        to_run(take_line(place, backlog))
    }
}
