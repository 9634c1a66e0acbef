// Pulses that end: whether a pulse is still the same after a call, and its end event. What is asked for is a fact of one pulse alone, and
// room for one more word.
#![tactic(auto)]

ghost use Rattle.std.specs.Prelude.{◌≡◌, ◌<◌, ◌≤◌, ◌+◌, ◌*◌, length};
ghost use Rattle.std.proofs.lemmas.List.Edits.{sets};
ghost use Rattle.cell.specs.Cell.{page_bytes, pages};
ghost use Rattle.registers.specs.Calls.{ending, ending_number};
ghost use Rattle.settle.specs.Settling.{ends_of, range_bytes, range_end, word};

use calling::ending;
use cell::PAGE_BYTES;
use registers::{Call, Pulse};
use settling::EventKind;

// The end event's word of a pulse whose range is not empty.
fn end_word(pulse: Pulse, call: Call, control: u8) -> u64
    requires { pulse.first + pulse.pages ≤ pages }
    ensures { result ≡ word (ending_number (ending pulse.direction call control)) (pulse.first * page_bytes) (pulse.pages * page_bytes) }
{
    let kind = EventKind::from(ending(pulse.direction, call, control));
    kind.word(pulse.first * PAGE_BYTES, pulse.pages * PAGE_BYTES)
}

// The end of a pulse that a call changed, told after `count` words. The answer is the count after.
pub fn end_pulse(
    events: &mut [u64],
    count: usize,
    call: Call,
    control: u8,
    old: Option<Pulse>,
    new: Option<Pulse>,
) -> usize
    requires { (range_end old ≤ pages) × (1 ≤ range_bytes old → count < length events.old) }
    ensures { (events.new ≡ sets events.old count (ends_of call control old new)) × (result ≡ count + length (ends_of call control old new)) }
{
    if old == new {
        return count;
    }
    match old {
        Some(pulse) if pulse.pages != 0 => {
            events[count] = end_word(pulse, call, control);
            count + 1
        }
        _ => count,
    }
}
