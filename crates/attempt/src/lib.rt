// One call on a state that is held by value: its refusal, or what it does. Every call goes by this one.
#![tactic(auto)]

ghost use Rattle.std.specs.Prelude.{◌≡◌, ◌<◌};
ghost use Rattle.flash.specs.Chip.{chip, answer_limit, Fit};
ghost use Rattle.lent.specs.Asked.{call_of, value_of};
ghost use Rattle.lent.specs.Held.{reply, replied};
ghost use Rattle.attempt.specs.Attempts.{answer_of, left_of};

use flash::Flash;
use lent::Asking;
use lent::checking::call_refusal;
use perform::{Done, perform};
use refusal::Refusal;

// The state stays apart from what is lent, and comes and goes by value, as `perform` takes it. Inlined: called, it would be copied once more.
#[inline(always)]
pub fn attempt(
    flash: Flash,
    array: &mut [u8],
    charges: &mut [u64],
    events: &mut [u64],
    asking: Asking,
) -> Result<Done, Refusal>
    requires { Fit (chip flash array.old charges.old) }
    ensures outcome { replied (answer_of result) events.new (chip (left_of flash result) array.new charges.new) ≡ reply asking.request asking.time events.old (chip flash array.old charges.old) }
    ensures limit { value_of (answer_of result) < answer_limit (call_of asking.request) }
{
    let now = call_refusal(flash, asking, events.len())?;
    Ok(perform(flash, array, charges, events, asking.request.into(), now))
}
