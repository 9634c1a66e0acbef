// Places in the course of a run.
ghost use Rattle.std.specs.Prelude.{◌≡◌, ◌≤◌, true, false};
ghost use Rattle.grammar.specs.declared.Line.TheVariants.{Nothing};
ghost use Rattle.steps.specs.Stepping.{Awaits};

use course::Place;
use grammar::Line;

// The calls that wait are run up to another.
pub fn run_up_to(place: Place, next: usize) -> Place
    requires { (next ≤ place.waiting) × (place.running ≡ true) }
    ensures { Awaits place place.waiting next place.due true result }
{
    let mut after = place;
    after.next = next;
    after
}

// Nothing waits and nothing is due.
pub fn all_done(place: Place) -> Place
    ensures { Awaits place 0 0 Nothing false result }
{
    let mut after = place;
    after.waiting = 0;
    after.next = 0;
    after.due = Line::Nothing;
    after.running = false;
    after
}

// The calls that wait are to be run.
pub fn to_run(place: Place) -> Place
    ensures { Awaits place place.waiting place.next place.due true result }
{
    let mut after = place;
    after.running = true;
    after
}
