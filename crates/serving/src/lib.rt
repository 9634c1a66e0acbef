// Calls that wait are run, and what they came to is noted: counted, said or complained of.
#![tactic(auto)]

ghost use Rattle.std.specs.Prelude.{◌≡◌, ◌-◌, ◌*◌, ◌≤◌, ◌<◌, Ok, length};
ghost use Rattle.lent.specs.Views.{memory_at, SameLent};
ghost use Rattle.course.specs.Desk.{desk, made, noted};
ghost use Rattle.serving.specs.Noting.{passed, noted_at_once};
ghost use Rattle.serving.specs.Serving.{Notes, Serves};

use course::{Complaint, Noted, Ongoing, complained, with_calls};
use lent::memory::LentMut;
use lent::{Answer, Asking};
use listing::{Replayed, call_at};
use refusal::Refusal;
use replay::replay;
use settling::tallies::tallied;
use slices::first;
use text::Text;
use voices::call_said;

// What some calls came to, and the first call that is not done.
#[derive(Clone, Copy)]
pub struct Served {
    pub noted: Noted,
    pub next: usize,
}

// The calls from one up to another were made and said nothing. They are told by their places in the list, as the definition does.
#[tactic(auto, unfolding(crate::specs::Noting::passed))]
fn passed(ongoing: Ongoing, calls: &[u64], from: usize, to: usize) -> Ongoing
    requires { (from ≤ to) × (3 * to ≤ length calls.now) }
    ensures course { result.course ≡ passed from to calls.now ongoing.course }
    ensures manner { result.manner ≡ ongoing.manner }
{
    if from == to {
        return ongoing;
    }
    let last = to - 1;
    let course = ongoing.course;
    let after = with_calls(
        course,
        (to - from) as u64,
        call_at(calls, last).time,
        course.counts.tally,
    );
    Ongoing {
        course: after,
        manner: ongoing.manner,
    }
}

// A call was made.
fn made(
    ongoing: Ongoing,
    line: u64,
    asking: Asking,
    events: &[u64],
    answer: Answer,
    out: &mut [u8],
) -> Noted
    ensures { Notes (made ongoing.manner line asking) ongoing.course (Ok answer) events.now out.old out.new result }
{
    let words = first(events, answer.count);
    let course = ongoing.course;
    let counted = tallied(course.counts.tally, words);
    let mut text = Text::new(out);
    call_said(
        &mut text,
        ongoing.manner.events,
        line,
        asking,
        words,
        answer.value,
    );
    Noted::quiet(with_calls(course, 1, asking.time, counted), text.at)
}

// A call came to an answer: it was made or refused.
fn noted(
    ongoing: Ongoing,
    line: u64,
    asking: Asking,
    events: &[u64],
    answer: Result<Answer, Refusal>,
    out: &mut [u8],
) -> Noted
    ensures { Notes (noted ongoing.manner line asking) ongoing.course answer events.now out.old out.new result }
{
    match answer {
        Ok(answer) => made(ongoing, line, asking, events, answer, out),
        Err(refusal) => complained(
            ongoing.course,
            ongoing.manner.go_on,
            Complaint::Refused(line, refusal),
        ),
    }
}

// A replay from one call on came to an answer: the calls before its last said nothing.
fn noted_at_once(
    ongoing: Ongoing,
    events: &[u64],
    calls: &[u64],
    numbers: &[u64],
    from: usize,
    answer: Replayed,
    out: &mut [u8],
) -> Noted
    requires { (from < answer.done) × (3 * answer.done ≤ length calls.now) × (answer.done ≤ length numbers.now) }
    ensures { Notes (noted_at_once ongoing.manner from (answer.done - 1) calls.now numbers.now) ongoing.course answer.last events.now out.old out.new result }
{
    let next = answer.done;
    let last = next - 1;
    let before = passed(ongoing, calls, from, last);
    let asking = call_at(calls, last);
    let line = numbers[last];
    noted(before, line, asking, events, answer.last, out)
}

// Runs the calls that wait from one on, up to the first that has something to say, and at most up to another.
pub fn serve(
    ongoing: Ongoing,
    memory: &mut LentMut,
    events: &mut [u64],
    calls: &[u64],
    numbers: &[u64],
    from: usize,
    to: usize,
    out: &mut [u8],
) -> Served
    requires { (from < to) × (3 * to ≤ length calls.now) × (to ≤ length numbers.now) }
    ensures same_lent { SameLent memory.old memory.new }
    ensures serves { Serves ongoing.manner calls.now numbers.now from to (desk ongoing.course (memory_at memory.old) events.old) (memory_at memory.new) events.new out.old out.new result }
{
    let answer = replay(memory, events, calls, from, to);
    Served {
        noted: noted_at_once(ongoing, events, calls, numbers, from, answer, out),
        next: answer.done,
    }
}
