// Reading and writing registers by their addresses.
#![tactic(auto)]

ghost use Rattle.std.specs.Prelude.{◌≡◌};
ghost use Rattle.control.specs.Bits.{control_value};
ghost use Rattle.registers.specs.Access.{register, control_set, register_set, write_register};
ghost use Rattle.access.specs.Settings.{settings_of, with_settings, Changed, put_back};

use bits::{
    EBR1, ESU, FENR, FLAG, FLMCR1, FLMCR2, FLPWCR, PSU, SWE, control_value, erase_after,
    erase_value, falls, flag, has,
};
use control::verify::pending_after;
use registers::Registers;
use time::Time;
use time::accepted::Accepted;
use waits::{ESU_RISE, PSU_RISE, SWE_RISE, recovery_after, renewed, verify_ready_after};

// The registers that a register write can change, but for a pending sense. The latch is not among them: it is long to copy, and a run of
// writes goes on without it.
#[derive(Clone, Copy)]
pub struct Settings {
    pub control: u8,
    pub erase: u8,
    pub enabled: bool,
    pub power_down_disabled: bool,
    pub swe_ready: Time,
    pub program_ready: Time,
    pub erase_ready: Time,
    pub recovery: Time,
    pub verify_ready: Time,
}

#[tactic(auto, unfolding(registers::specs::Access::register))]
pub fn register(registers: Registers, address: u16) -> u8
    ensures { result ≡ register address registers }
{
    let enabled = registers.enabled;
    if address == FENR {
        return flag(enabled);
    }
    if !enabled {
        return 0;
    }
    match address {
        FLMCR1 => registers.control,
        FLMCR2 => flag(registers.error),
        FLPWCR => flag(registers.power_down_disabled),
        EBR1 => registers.erase,
        _ => 0,
    }
}

pub fn settings_of(registers: Registers) -> Settings
    ensures { result ≡ settings_of registers }
{
    let swe_ready = registers.swe_ready;
    let program_ready = registers.program_ready;
    let erase_ready = registers.erase_ready;
    let recovery = registers.recovery;
    let verify_ready = registers.verify_ready;
    Settings {
        control: registers.control,
        erase: registers.erase,
        enabled: registers.enabled,
        power_down_disabled: registers.power_down_disabled,
        swe_ready,
        program_ready,
        erase_ready,
        recovery,
        verify_ready,
    }
}

// Registers with these settings and nothing pending.
pub fn with_settings(settings: Settings, registers: Registers) -> Registers
    ensures { result ≡ with_settings settings registers }
{
    let swe_ready = settings.swe_ready;
    let program_ready = settings.program_ready;
    let erase_ready = settings.erase_ready;
    let recovery = settings.recovery;
    let verify_ready = settings.verify_ready;
    Registers {
        control: settings.control,
        erase: settings.erase,
        enabled: settings.enabled,
        power_down_disabled: settings.power_down_disabled,
        swe_ready,
        program_ready,
        erase_ready,
        recovery,
        verify_ready,
        verify_pending: None,
        ..registers
    }
}

// Control becomes `new`, with all that follows from it but for a pending sense. Inlined, as the two below: called, a run of light writes
// (`light`) would have its settings in memory.
#[inline(always)]
#[tactic(auto, unfolding(registers::specs::Access::control_set))]
fn set_control(settings: Settings, new: u8, now: Accepted) -> Settings
    ensures { Changed (control_set new now.time) settings result }
{
    let old = settings.control;
    let recovery = recovery_after(old, new, now, settings.recovery);
    let swe_ready = renewed(falls(SWE, new, old), SWE_RISE, now, settings.swe_ready);
    let program_ready = renewed(falls(PSU, new, old), PSU_RISE, now, settings.program_ready);
    let erase_ready = renewed(falls(ESU, new, old), ESU_RISE, now, settings.erase_ready);
    let verify_ready = verify_ready_after(old, new, now, settings.verify_ready);
    let erase = erase_after(new, settings.erase);
    Settings {
        control: new,
        erase,
        swe_ready,
        program_ready,
        erase_ready,
        recovery,
        verify_ready,
        ..settings
    }
}

// A write to a register other than F02B.
#[inline(always)]
#[tactic(auto, unfolding(registers::specs::Access::register_set))]
fn set_register(settings: Settings, address: u16, value: u8, now: Accepted) -> Settings
    ensures { Changed (register_set address value now.time) settings result }
{
    match address {
        FLMCR1 => set_control(settings, control_value(value), now),
        FLPWCR => Settings {
            power_down_disabled: has(value, FLAG),
            ..settings
        },
        EBR1 => {
            if has(settings.control, SWE) {
                return Settings {
                    erase: erase_value(value),
                    ..settings
                };
            }
            settings
        }
        _ => settings,
    }
}

// A write on these registers alone.
#[inline(always)]
#[tactic(auto, unfolding(registers::specs::Access::write_register, registers::specs::Access::settled))]
pub fn write(settings: Settings, address: u16, value: u8, now: Accepted) -> Settings
    ensures { Changed (write_register address value now.time) settings result }
{
    if address == FENR {
        return Settings {
            enabled: has(value, FLAG),
            ..settings
        };
    }
    if settings.enabled {
        return set_register(settings, address, value, now);
    }
    settings
}

// Registers with these settings. What was pending stays so while control's low four bits do.
fn put_back(settings: Settings, registers: Registers) -> Registers
    ensures { result ≡ put_back registers (with_settings settings registers) }
{
    let verify_pending = pending_after(
        registers.control,
        settings.control,
        registers.verify_pending,
    );
    Registers {
        verify_pending,
        ..with_settings(settings, registers)
    }
}

// Writing F020, by itself: as part of a write by its address, `write` does it.
pub fn write_control(registers: Registers, value: u8, now: Accepted) -> Registers
    ensures { result ≡ control_set (control_value value) now.time registers }
{
    let after = set_control(settings_of(registers), control_value(value), now);
    put_back(after, registers)
}

pub fn write_register(registers: Registers, address: u16, value: u8, now: Accepted) -> Registers
    ensures { result ≡ write_register address value now.time registers }
{
    let settles = (address != FENR) & registers.enabled;
    let before = if settles {
        registers.settled(now.time)
    } else {
        registers
    };
    put_back(write(settings_of(before), address, value, now), before)
}
