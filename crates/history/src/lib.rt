// A line of a history is parsed, and its call is put among those that wait for the replay. A list of any length comes over the C interface
// as three numbers a call, so that its bounds are clauses.
#![tactic(auto)]

ghost use Rattle.std.specs.Prelude.{◌≡◌, [], ◌∷◌, ◌+◌, ◌*◌, ◌≤◌, length};
ghost use Rattle.std.proofs.lemmas.List.Edits.{sets};
ghost use Rattle.history.specs.History.{time_after, waits, Takes};

use grammar::{Line, parse};
use listing::{NUMBERS, word_of};
use moments::moment_in;
use time::Time;
use words::LineWord;

// What a line is, the time that the next line counts from, and how many calls wait.
#[derive(Clone, Copy)]
pub struct Taken {
    pub line: Line,
    pub before: Option<Time>,
    pub waiting: usize,
}

// A call's numbers are put at a place.
fn put_call(calls: &mut [u64], at: usize, what: u64, time: Time)
    requires { at + 3 ≤ length calls.old }
    ensures { calls.new ≡ sets calls.old at (what ∷ time.0 ∷ time.1 ∷ []) }
{
    let Time(seconds, fraction) = time;
    calls[at..at + NUMBERS].copy_from_slice(&[what, seconds, fraction]);
}

// The time that a `+` in the next line counts from.
#[tactic(auto, unfolding(crate::specs::History::time_after))]
fn time_after(line: &[u8], earlier: Option<Time>) -> Option<Time>
    ensures { result ≡ time_after earlier line.now }
{
    let w = LineWord::first(line);
    if w.is_empty() {
        return earlier;
    }
    moment_in(w.text(), earlier).ok().or(earlier)
}

// Takes a line: its call, if it has one, is put behind those that wait.
pub fn take(line: &[u8], earlier: Option<Time>, calls: &mut [u64], waiting: usize) -> Taken
    requires { 3 * waiting + 3 ≤ length calls.old }
    ensures { Takes line.now (waits earlier waiting calls.old) result.line (waits result.before result.waiting calls.new) }
{
    let parsed = parse(line, earlier);
    let before = time_after(line, earlier);
    match parsed {
        Line::Call(time, request) => {
            put_call(calls, NUMBERS * waiting, word_of(request), time);
            Taken {
                line: parsed,
                before,
                waiting: waiting + 1,
            }
        }
        Line::Nothing | Line::Look(_, _) | Line::Wrong(_) => Taken {
            line: parsed,
            before,
            waiting,
        },
    }
}
