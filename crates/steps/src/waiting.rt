// What waits is done: calls are run, and then the line that is due is done.
// That a place is running is asked of private functions behind one test: a type for it would be taken apart again by the next match.
ghost use Rattle.std.specs.Prelude.{◌≡◌, true, List, ℕ, ◌≤◌, ◌<◌};
ghost use Rattle.lent.specs.Views.{memory_at};
ghost use Rattle.course.specs.declared.memory.Backlog.{Backlog};
ghost use Rattle.course.specs.Desk.{desk};
ghost use Rattle.course.specs.Views.{desk_on, SameBench};
ghost use Rattle.steps.specs.Stepping.{Does};

use crate::Stepped;
use crate::due::do_due;
use crate::places::{all_done, run_up_to};
use course::memory::{Backlog, Bench};
use course::{Ongoing, Place};
use lent::memory::LentMut;
use serving::serve;

// The calls that wait are run up to one that has something to tell.
#[tactic(auto, using(crate::proofs::Desks::moved))]
fn serve_some(ongoing: Ongoing, place: Place, bench: &mut Bench, backlog: &Backlog) -> Stepped
    requires { (place.next < place.waiting) × (place.running ≡ true) }
    ensures same { SameBench bench.old bench.new }
    ensures does { Does ongoing.manner place backlog.now (desk_on ongoing.course bench.old) result.place result.noted (memory_at bench.new.memory) bench.new.events.now bench.old.out.now bench.new.out.now }
{
    let next = place.next;
    let waiting = place.waiting;
    let served = serve(
        ongoing,
        &mut bench.memory,
        bench.events,
        &backlog.calls,
        &backlog.numbers,
        next,
        waiting,
        bench.out,
    );
    Stepped {
        noted: served.noted,
        place: run_up_to(place, served.next),
    }
}

// No call waits any more, and the line that is due is done.
#[tactic(auto, using(crate::proofs::Desks::moved))]
fn finish_due(ongoing: Ongoing, place: Place, memory: &LentMut, out: &mut [u8]) -> Stepped
    requires { place.waiting ≤ place.next }
    ensures { (backlog : Backlog) (events : List ℕ) → Does ongoing.manner place backlog (desk ongoing.course (memory_at memory.now) events) result.place result.noted (memory_at memory.now) events out.old out.new }
{
    Stepped {
        noted: do_due(ongoing, place, memory.seen(), out),
        place: all_done(place),
    }
}

pub fn run_on(ongoing: Ongoing, place: Place, bench: &mut Bench, backlog: &Backlog) -> Stepped
    requires { place.running ≡ true }
    ensures same { SameBench bench.old bench.new }
    ensures does { Does ongoing.manner place backlog.now (desk_on ongoing.course bench.old) result.place result.noted (memory_at bench.new.memory) bench.new.events.now bench.old.out.now bench.new.out.now }
{
    if place.next < place.waiting {
        serve_some(ongoing, place, bench, backlog)
    } else {
        finish_due(ongoing, place, &bench.memory, bench.out)
    }
}
