// The calls of the ledger: what each does to the registers, whether it settles, and how a pulse that it ends has ended.
#![tactic(auto)]

ghost use Rattle.std.specs.Prelude.{◌≡◌};
ghost use Rattle.registers.specs.Calls.{next, settles, writes_control, ending};

use access::write_register;
use bits::{FENR, FLMCR1, SWE, setup};
use cell::Direction;
use environment::{environment, power_off, reset, unchanged};
use latch::write8;
use registers::{Call, Ending, Registers};
use time::Time;
use time::accepted::Accepted;

fn writes_control(call: Call) -> bool
    ensures { result ≡ writes_control call }
{
    matches!(call, Call::WriteRegister(address, _) if address == FLMCR1)
}

// How a pulse that a call changed has ended; `control` is as the call left it.
#[tactic(auto, unfolding(registers::specs::Calls::ending))]
pub fn ending(direction: Direction, call: Call, control: u8) -> Ending
    ensures { result ≡ ending direction call control }
{
    if writes_control(call) & (control == SWE + setup(direction)) {
        return Ending::Completed;
    }
    Ending::Interrupted
}

// The registers after an accepted call.
#[tactic(auto, unfolding(registers::specs::Calls::next))]
pub fn next(registers: Registers, call: Call, now: Accepted) -> Registers
    ensures { result ≡ next call now.time registers }
{
    match call {
        Call::WriteRegister(a, v) => write_register(registers, a, v, now),
        Call::Write8(a, v) => write8(registers, a, v, now),
        Call::Read8(_) => registers.read8(now),
        Call::Read16(_) => registers.read16(now),
        Call::Protect => registers.protect(now),
        Call::Reset => reset(registers, now.time),
        Call::PowerOff => power_off(registers, now.time),
        Call::Environment(mode, module, oscillator) => environment(
            registers, mode, module, oscillator, now,
        ),
    }
}

// Whether a call settles in this state.
#[tactic(auto, unfolding(registers::specs::Calls::settles))]
pub fn settles(registers: Registers, call: Call, now: Time) -> bool
    ensures { result ≡ settles call now registers }
{
    match call {
        Call::WriteRegister(a, _) => (a != FENR) & registers.enabled,
        Call::Write8(_, _) | Call::Reset | Call::PowerOff => true,
        Call::Read8(_) | Call::Read16(_) => !registers.normal(now),
        Call::Protect => registers.pulse().is_some(),
        Call::Environment(mode, module, oscillator) => !unchanged(
            registers, mode, module, oscillator,
        ),
    }
}
