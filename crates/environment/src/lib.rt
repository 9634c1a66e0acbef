// Reset, power-off, and changes of mode, module and oscillator. These three stay parameters: they come as a call's fields, which the
// definitions name one by one, and a struct would be made in a match arm only for the next function to take it apart.
#![tactic(auto)]

ghost use Rattle.std.specs.Prelude.{◌≡◌};
ghost use Rattle.registers.specs.Environment.{cleared, reset, power_off, unchanged, clears, environment_set, environment};

use control::supplies::supply_in;
use control::{Mode, Supply};
use registers::{BLANK_LATCH, Registers};
use time::Time;
use time::accepted::Accepted;
use waits::{ESU_RISE, PSU_RISE, SUPPLY_CHANGE, SWE_RISE, renewed};

// Control, error, erase and the pending sense cleared.
fn cleared(registers: Registers) -> Registers
    ensures { result ≡ cleared registers }
{
    Registers {
        control: 0,
        error: false,
        erase: 0,
        verify_pending: None,
        ..registers
    }
}

#[tactic(auto, unfolding(registers::specs::Environment::reset, registers::specs::Environment::blank_latch))]
pub fn reset(registers: Registers, now: Time) -> Registers
    ensures { result ≡ reset now registers }
{
    let mut r = cleared(registers.settled(now));
    r.enabled = false;
    r.power_down_disabled = false;
    r.latch = BLANK_LATCH;
    r.page = 0;
    r.recovery = now;
    r
}

#[tactic(auto, unfolding(registers::specs::Environment::power_off))]
pub fn power_off(registers: Registers, now: Time) -> Registers
    ensures { result ≡ power_off now registers }
{
    let r = reset(registers, now);
    Registers {
        supply: Supply::Stopped,
        oscillator: false,
        module: false,
        ..r
    }
}

// Whether supply, oscillator, mode and module are as they were.
#[tactic(auto, unfolding(registers::specs::Environment::unchanged))]
pub fn unchanged(registers: Registers, mode: Mode, module: bool, oscillator: bool) -> bool
    ensures { result ≡ unchanged mode «module» oscillator registers }
{
    let supply = supply_in(mode, module, registers.power_down_disabled);
    (registers.supply == supply)
        & (registers.oscillator == oscillator)
        & (registers.mode == mode)
        & (registers.module == module)
}

// Whether a change of mode or module clears control.
#[tactic(auto, unfolding(registers::specs::Environment::clears))]
fn clears(registers: Registers, mode: Mode, module: bool) -> bool
    ensures { result ≡ clears mode «module» registers }
{
    let unaffected = matches!(mode, Mode::Active | Mode::Sleep);
    (!module & registers.module) | ((mode != registers.mode) & !unaffected)
}

// The new supply, oscillator, mode and module, with the waits that they begin.
#[tactic(auto, unfolding(registers::specs::Environment::environment_set))]
fn environment_set(
    registers: Registers,
    mode: Mode,
    module: bool,
    oscillator: bool,
    supply: Supply,
    now: Accepted,
) -> Registers
    ensures { result ≡ environment_set mode «module» oscillator supply now.time registers }
{
    let old = registers.supply;
    let starts = oscillator & !registers.oscillator;
    let supplied = (supply != old) & (old != Supply::Normal) & (supply != Supply::Stopped);
    let ready = renewed(supplied, SUPPLY_CHANGE, now, registers.ready);
    let swe_ready = renewed(starts, SWE_RISE, now, registers.swe_ready);
    let program_ready = renewed(starts, PSU_RISE, now, registers.program_ready);
    let erase_ready = renewed(starts, ESU_RISE, now, registers.erase_ready);
    Registers {
        supply,
        oscillator,
        mode,
        module,
        ready,
        swe_ready,
        program_ready,
        erase_ready,
        ..registers
    }
}

#[tactic(auto, unfolding(registers::specs::Environment::environment))]
pub fn environment(
    registers: Registers,
    mode: Mode,
    module: bool,
    oscillator: bool,
    now: Accepted,
) -> Registers
    ensures { result ≡ environment mode «module» oscillator now.time registers }
{
    if unchanged(registers, mode, module, oscillator) {
        return registers;
    }
    let supply = supply_in(mode, module, registers.power_down_disabled);
    let r = registers.settled(now.time);
    if clears(registers, mode, module) {
        return environment_set(cleared(r), mode, module, oscillator, supply, now);
    }
    environment_set(r, mode, module, oscillator, supply, now)
}
