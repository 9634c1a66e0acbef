// The replay for C and Rust programs, exported by the crate `replaying_c` into an archive of its own: the host interface has one call a
// function.
#![tactic(auto)]

ghost use Rattle.lent.specs.Memory.{lent};
ghost use Rattle.listing.specs.Replaying.{asks, Replays};

use lent::memory::LentMut;
use refusal::told;
use replay::replay;

// The calls from..to of a list, three numbers each, as `replay` does them. The answer is the last call's number.
#[unsafe(no_mangle)]
pub extern "C" fn flash_replay(
    record: &mut [u8],
    array: &mut [u8],
    charges: &mut [u64],
    events: &mut [u64],
    calls: &[u64],
    from: usize,
    to: usize,
    done: &mut u64,
    value: &mut u16,
    count: &mut u64,
) -> u32
    ensures { Replays from (asks from to calls.now events.old (lent «record».old array.old charges.old)) events.old (lent «record».old array.old charges.old) done.new result value.new count.new (lent «record».new array.new charges.new) events.new }
{
    let mut memory = LentMut {
        record,
        array,
        charges,
    };
    let replayed = replay(&mut memory, events, calls, from, to);
    let answer = replayed.last.unwrap_or_default();
    *done = replayed.done as u64;
    *value = answer.value;
    *count = answer.count as u64;
    told(replayed.last)
}
