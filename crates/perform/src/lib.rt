// One accepted call: what it does to the state and to the lent array, charges and event words, and what it answers.
#![tactic(auto)]

ghost use Rattle.std.specs.Prelude.{◌≡◌, true, ◌<◌, ◌≤◌, length};
ghost use Rattle.registers.specs.Pulses.{pulse};
ghost use Rattle.registers.specs.Calls.{settles};
ghost use Rattle.settle.specs.Settling.{range_bytes};
ghost use Rattle.flash.specs.Chip.{chip, placed, sensed_after, Fit, Performed};

use calling::{next, settles};
use flash::{Answer, BLANK_SENSED, Flash};
use flash_answer::{settled_answer, stored_answer};
use flash_end::end_pulse;
use flash_sense::sense;
use registers::Call;
use settle::cells::CellsMut;
use settling::settle;
use time::accepted::Accepted;

// The state after a call, and its answer.
#[derive(Clone, Copy)]
pub struct Done {
    pub flash: Flash,
    pub answer: Answer,
}

// The sensed bytes after a call whose settle left some.
#[tactic(auto, unfolding(flash::specs::Chip::blank_sensed))]
fn sensed_after(call: Call, sensed: [u8; 4]) -> [u8; 4]
    ensures { result ≡ sensed_after call sensed }
{
    match call {
        Call::Reset | Call::PowerOff => BLANK_SENSED,
        _ => sensed,
    }
}

// A call that settles. The state stays apart from the array and the charges: it comes and goes by value, and only these two functions
// ask that they fit.
fn perform_settling(
    flash: Flash,
    array: &mut [u8],
    charges: &mut [u64],
    events: &mut [u64],
    call: Call,
    now: Accepted,
) -> Done
    requires fit { Fit (chip flash array.old charges.old) }
    requires placed { placed call ≡ true }
    requires room { 1 ≤ range_bytes (pulse flash.registers) → range_bytes (pulse flash.registers) < length events.old }
    requires settles { settles call now.time flash.registers ≡ true }
    ensures { Performed call now.time (chip flash array.old charges.old) events.old (chip result.flash array.new charges.new) events.new result.answer.value result.answer.count }
{
    let registers = flash.registers;
    let mut indices = flash.indices;
    let pulse = registers.pulse();
    let mut cells = CellsMut {
        index: &mut indices,
        array,
        charges,
    };
    let since = flash.pulse_since;
    let changed = settle(&mut cells, events, pulse, &registers.latch, since, now.time);
    let next = next(registers, call, now);
    let count = end_pulse(events, changed, call, next.control, pulse, next.pulse());
    let old = flash.sensed;
    let sensed = sense(registers, now.time, &cells.seen(), old);
    let value = settled_answer(call, now.time, pulse, registers, sensed);
    let flash = Flash {
        registers: next,
        pulse_since: now.time,
        sensed: sensed_after(call, sensed),
        indices,
    };
    let answer = Answer { value, count };
    Done { flash, answer }
}

// An accepted call.
pub fn perform(
    flash: Flash,
    array: &mut [u8],
    charges: &mut [u64],
    events: &mut [u64],
    call: Call,
    now: Accepted,
) -> Done
    requires fit { Fit (chip flash array.old charges.old) }
    requires placed { placed call ≡ true }
    requires room { settles call now.time flash.registers ≡ true → 1 ≤ range_bytes (pulse flash.registers) → range_bytes (pulse flash.registers) < length events.old }
    ensures { Performed call now.time (chip flash array.old charges.old) events.old (chip result.flash array.new charges.new) events.new result.answer.value result.answer.count }
{
    let registers = flash.registers;
    if settles(registers, call, now.time) {
        return perform_settling(flash, array, charges, events, call, now);
    }
    let value = stored_answer(call, registers, now.time, array);
    let answer = Answer { value, count: 0 };
    let flash = Flash {
        registers: next(registers, call, now),
        ..flash
    };
    Done { flash, answer }
}
