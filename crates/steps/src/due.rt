// The line that is due is done: a look is taken, or the line is complained of.
ghost use Rattle.std.specs.Prelude.{List, ℕ};
ghost use Rattle.lent.specs.Views.{memory_in};
ghost use Rattle.course.specs.Desk.{desk, line_done, Leaves};

use course::{Complaint, Noted, Ongoing, Place, complained};
use grammar::Line;
use lent::memory::Lent;
use voices::look;

// Calls are not due: they wait.
pub fn do_due(ongoing: Ongoing, place: Place, memory: Lent, out: &mut [u8]) -> Noted
    ensures { (events : List ℕ) → Leaves (line_done ongoing.manner place.lines place.due (desk ongoing.course (memory_in memory.entry) events)) result.course (memory_in memory.entry) events result.complaint out.old out.new result.end }
{
    let course = ongoing.course;
    let manner = ongoing.manner;
    let number = place.lines;
    match place.due {
        Line::Nothing | Line::Call(_, _) => Noted::quiet(course, 0),
        Line::Look(time, looking) => look(course, manner, memory, number, time, looking, out),
        Line::Wrong(fault) => complained(course, manner.go_on, Complaint::Wrong(number, fault)),
    }
}
