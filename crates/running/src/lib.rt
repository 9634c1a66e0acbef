// Calls of a list on the state that is held, until one stops the replay.
#![tactic(auto)]

ghost use Rattle.std.specs.Prelude.{◌≡◌, ◌*◌, ◌≤◌, length};
ghost use Rattle.refusal.specs.Refusal.{told};
ghost use Rattle.flash.specs.Chip.{chip, Fit};
ghost use Rattle.lent.specs.Memory.{memory_of};
ghost use Rattle.lent.specs.Asked.{count_of};
ghost use Rattle.lent.specs.Held.{Ready, reply, replied};
ghost use Rattle.listing.specs.Replaying.{reads, stops, idle};
ghost use Rattle.listing.specs.Held.{came, ended};

use attempt::attempt;
use flash::Flash;
use lent::{Answer, Asking, Request};
use light::run_light;
use listing::{Replayed, call_at};
use refusal::Refusal;

fn reads(request: Request) -> bool
    ensures { result ≡ reads request }
{
    matches!(request, Request::Read8(_) | Request::Read16(_))
}

// Whether a call with some outcome ends a replay.
fn stops(request: Request, outcome: Result<Answer, Refusal>) -> bool
    ensures { result ≡ stops request (told outcome) (count_of outcome) }
{
    outcome.map_or(true, |answer| (answer.count != 0) | reads(request))
}

// One call on the state that is held.
fn call_held(
    flash: &mut Flash,
    array: &mut [u8],
    charges: &mut [u64],
    events: &mut [u64],
    asking: Asking,
) -> Result<Answer, Refusal>
    requires { Fit (chip flash.old array.old charges.old) }
    ensures { replied result events.new (chip flash.new array.new charges.new) ≡ reply asking.request asking.time events.old (chip flash.old array.old charges.old) }
{
    let done = attempt(*flash, array, charges, events, asking)?;
    *flash = done.flash;
    Ok(done.answer)
}

// The calls from..end, light ones in runs. A list may hold any number of calls: that these lie in it is a fact of the two.
pub fn run(
    flash: &mut Flash,
    array: &mut [u8],
    charges: &mut [u64],
    events: &mut [u64],
    calls: &[u64],
    from: usize,
    end: usize,
) -> Replayed
    requires { Ready (chip flash.old array.old charges.old) × (3 * end ≤ length calls.now) }
    ensures { ended end from calls.now (idle events.old (memory_of (chip flash.old array.old charges.old))) ≡ came result (chip flash.new array.new charges.new) events.new }
{
    let mut i: usize = from;
    // No for: the place moves on past a run of light calls.
    loop {
        let ahead = run_light(*flash, calls, i, end);
        i = ahead.done;
        *flash = ahead.flash;
        if end <= i {
            return Replayed {
                done: i,
                last: Ok(Answer::default()),
            };
        }
        let asking = call_at(calls, i);
        let last = call_held(flash, array, charges, events, asking);
        i += 1;
        if stops(asking.request, last) {
            return Replayed { done: i, last };
        }
    }
}
