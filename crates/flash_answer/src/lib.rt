// What reads answer: the stored bytes, or what a settle left in the sensed ones. What is asked for is what a test before found, that a
// call is placed or does not settle, and the length of the array, which is lent alone here.
#![tactic(auto)]

ghost use Rattle.std.specs.Prelude.{◌≡◌, true, false, ◌<◌, length};
ghost use Rattle.cell.specs.Cell.{array_bytes};
ghost use Rattle.registers.specs.Calls.{settles};
ghost use Rattle.flash.specs.Chip.{placed, verified, unserved, settled_answer, stored_answer, answer_limit};

use bits::verifies;
use control::Supply;
use permit::{serve_byte, serve_word};
use registers::{Call, Pulse, Registers};
use time::Time;

// What a byte read answers where reading is not normal and no pulse is open, after its settle.
#[tactic(auto, unfolding(flash::specs::Chip::verified))]
fn verified(address: u16, time: Time, registers: Registers, sensed: [u8; 4]) -> u8
    ensures { result ≡ verified address time registers sensed }
{
    if verifies(registers.control)
        & (registers.supply != Supply::Stopped)
        & time.reached(registers.ready)
    {
        return sensed[usize::from(address % 4)];
    }
    0xFF
}

// What a byte read answers where reading is not normal.
fn unserved(
    address: u16,
    time: Time,
    pulse: Option<Pulse>,
    registers: Registers,
    sensed: [u8; 4],
) -> u8
    ensures { result ≡ unserved address time pulse registers sensed }
{
    if pulse.is_some() {
        return 0xFF;
    }
    verified(address, time, registers, sensed)
}

// The answer of a call that settled; `sensed` is as the settle left it.
pub fn settled_answer(
    call: Call,
    time: Time,
    pulse: Option<Pulse>,
    registers: Registers,
    sensed: [u8; 4],
) -> u16
    requires { placed call ≡ true }
    ensures { (result ≡ settled_answer call time pulse registers sensed) × (result < answer_limit call) }
{
    match call {
        Call::Read8(a) => u16::from(unserved(a, time, pulse, registers, sensed)),
        Call::Read16(a) => {
            let high = unserved(a, time, pulse, registers, sensed);
            let low = unserved(a + 1, time, pulse, registers, sensed);
            u16::from_be_bytes([high, low])
        }
        _ => 0,
    }
}

// The answer of a call that did not settle: such a read is normal, and the permit shows it the stored bytes.
pub fn stored_answer(call: Call, registers: Registers, time: Time, array: &[u8]) -> u16
    requires { (settles call time registers ≡ false) × (placed call ≡ true) × (length array.now ≡ array_bytes) }
    ensures { (result ≡ stored_answer call array.now) × (result < answer_limit call) }
{
    match call {
        Call::Read8(a) => u16::from(serve_byte(registers, time, array, usize::from(a))),
        Call::Read16(a) => serve_word(registers, time, array, usize::from(a)),
        _ => 0,
    }
}
