// The ledger's calls over lent memory.
#![tactic(auto)]

ghost use Rattle.std.specs.Prelude.{◌≡◌, ◌<◌};
ghost use Rattle.flash.specs.Chip.{answer_limit};
ghost use Rattle.lent.specs.Asked.{call_of, outcome, value_of, came_to};
ghost use Rattle.lent.specs.Views.{memory_at, SameLent};

use attempt::attempt;
use coding::write;
use lent::memory::LentMut;
use lent::{Answer, Asking};
use refusal::Refusal;

// Any call: its answer, or why it is refused.
pub fn ask(memory: &mut LentMut, events: &mut [u64], asking: Asking) -> Result<Answer, Refusal>
    ensures same { SameLent memory.old memory.new }
    ensures outcome { came_to result events.new (memory_at memory.new) ≡ outcome asking.request asking.time events.old (memory_at memory.old) }
    ensures limit { value_of result < answer_limit (call_of asking.request) }
{
    let flash = memory.seen().opened_state()?;
    let done = attempt(flash, memory.array, memory.charges, events, asking)?;
    write(memory.record, done.flash);
    Ok(done.answer)
}
