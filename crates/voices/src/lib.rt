// What a run says of a call that was made, and of a look. What does not fit is cut off.
#![tactic(auto)]

ghost use Rattle.std.specs.Prelude.{List, ℕ};
ghost use Rattle.lent.specs.Views.{memory_in};
ghost use Rattle.text.specs.Says.{Says};
ghost use Rattle.course.specs.Desk.{desk, events_said, value_said, call_said, look_done, Leaves};

use crate::looks::look_at;
use answers::answered;
use course::{Complaint, Course, Manner, Noted, complained};
use grammar::Looking;
use lent::memory::Lent;
use lent::{Asking, Request};
use sayings::events::event;
use text::Text;
use time::Time;

mod looks;

// Each event with its time.
fn put_events(text: &mut Text, time: Time, words: &[u64])
    ensures { Says (events_said time words.now) text.old text.new }
{
    for word in words {
        event(text, time, *word);
    }
}

// What a read answered.
fn put_value(text: &mut Text, line: u64, request: Request, value: u16)
    ensures { Says (value_said line request value) text.old text.new }
{
    match request {
        Request::Read8(a) => answered(text, line, u64::from(a), u64::from(value), false),
        Request::Read16(a) => answered(text, line, u64::from(a), u64::from(value), true),
        Request::WriteRegister(_, _)
        | Request::Write8(_, _)
        | Request::Protect
        | Request::Reset
        | Request::PowerOff
        | Request::Environment(_, _, _) => {}
    }
}

// The events of a call and what it answered, where they are asked for.
pub fn call_said(
    text: &mut Text,
    events_asked: bool,
    line: u64,
    asking: Asking,
    words: &[u64],
    value: u16,
)
    ensures { Says (call_said events_asked line asking words.now value) text.old text.new }
{
    if events_asked {
        put_events(text, asking.time, words);
        put_value(text, line, asking.request, value);
    }
}

// A look: what is seen is said. One that is refused is left out. No `Ongoing`, since it is said of every course what a look comes to.
pub fn look(
    course: Course,
    manner: Manner,
    lent: Lent,
    line: u64,
    time: Time,
    looking: Looking,
    out: &mut [u8],
) -> Noted
    ensures { (events : List ℕ) → Leaves (look_done manner line looking time (desk course (memory_in lent.entry) events)) result.course (memory_in lent.entry) events result.complaint out.old out.new result.end }
{
    match look_at(lent, line, time, looking, out) {
        Ok(end) => Noted::quiet(course, end),
        Err(refusal) => complained(course, manner.go_on, Complaint::Unseen(line, refusal)),
    }
}
