// The replay of a list of calls on lent memory: the record is read and written once, and the calls run on the state that is held.
#![tactic(auto)]

ghost use Rattle.refusal.specs.Refusal.{told};
ghost use Rattle.lent.specs.Asked.{value_of, count_of};
ghost use Rattle.lent.specs.Views.{memory_at, SameLent};
ghost use Rattle.listing.specs.Replaying.{asks, Replays};

use coding::write;
use lent::Answer;
use lent::memory::LentMut;
use listing::{NUMBERS, Replayed};
use running::run;

// The calls from..to, up to one that is refused, gives event words or reads. Past the list's end there is nothing to do.
pub fn replay(
    memory: &mut LentMut,
    events: &mut [u64],
    calls: &[u64],
    from: usize,
    to: usize,
) -> Replayed
    ensures same { SameLent memory.old memory.new }
    ensures done { Replays from (asks from to calls.now events.old (memory_at memory.old)) events.old (memory_at memory.old) result.done (told result.last) (value_of result.last) (count_of result.last) (memory_at memory.new) events.new }
{
    let end = to.min(calls.len() / NUMBERS);
    if end <= from {
        return Replayed {
            done: from,
            last: Ok(Answer::default()),
        };
    }
    match memory.seen().opened_state() {
        Ok(mut flash) => {
            let ran = run(
                &mut flash,
                memory.array,
                memory.charges,
                events,
                calls,
                from,
                end,
            );
            write(memory.record, flash);
            ran
        }
        Err(refusal) => Replayed {
            done: from + 1,
            last: Err(refusal),
        },
    }
}
