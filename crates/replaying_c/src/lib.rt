// The replay for programs in C and Rust, in an archive of its own: the function of `replaying`, which promises what that one does.
#![tactic(auto)]

ghost use Rattle.lent.specs.Memory.{lent};
ghost use Rattle.listing.specs.Replaying.{asks, Replays};

// The calls from..to of a list, three numbers each, as `replay` does them. The answer is the last call's number.
#[unsafe(no_mangle)]
pub extern "C" fn flash_replay(
    record: &mut [u8],
    array: &mut [u8],
    charges: &mut [u64],
    events: &mut [u64],
    calls: &[u64],
    from: usize,
    to: usize,
    done: &mut u64,
    value: &mut u16,
    count: &mut u64,
) -> u32
    ensures { Replays from (asks from to calls.now events.old (lent «record».old array.old charges.old)) events.old (lent «record».old array.old charges.old) done.new result value.new count.new (lent «record».new array.new charges.new) events.new }
{
    replaying::flash_replay(
        record, array, charges, events, calls, from, to, done, value, count,
    )
}
