// The data write: a byte for the latch, or the start of a verify sense.
#![tactic(auto)]

ghost use Rattle.std.specs.Prelude.{◌≡◌};
ghost use Rattle.registers.specs.Latch.{takes_data, latched, sense_pending, data_taken, data_write, write8};

use bits::{SWE, has, low, verifies};
use cell::PAGE_BYTES;
use control::{PendingSense, Supply};
use registers::Registers;
use time::Time;
use time::accepted::Accepted;
use waits::SENSE;

// Whether a data write is taken.
fn takes_data(registers: Registers, now: Time) -> bool
    ensures { result ≡ takes_data now registers }
{
    has(registers.control, SWE)
        & now.reached(registers.swe_ready)
        & (registers.supply == Supply::Normal)
        & registers.oscillator
}

// The byte is latched, and the page is the address's.
fn latched(registers: Registers, address: u16, value: u8) -> Registers
    ensures { result ≡ latched address value registers }
{
    let at = usize::from(address % PAGE_BYTES);
    let mut r = registers;
    r.latch[at] = value;
    r.page = address / PAGE_BYTES * PAGE_BYTES;
    r
}

// A sense of the aligned four bytes becomes pending.
fn sense_pending(registers: Registers, address: u16, now: Accepted) -> Registers
    ensures { result ≡ sense_pending address now.time registers }
{
    let at = now
        .after(SENSE)
        .max(registers.verify_ready)
        .max(registers.recovery)
        .max(registers.ready);
    Registers {
        verify_pending: Some(PendingSense {
            address: address / 4 * 4,
            at,
        }),
        ..registers
    }
}

#[tactic(auto, unfolding(registers::specs::Latch::data_taken))]
fn data_taken(registers: Registers, address: u16, value: u8, now: Accepted) -> Registers
    ensures { result ≡ data_taken address value now.time registers }
{
    if (low(registers.control) == 0) & now.time.reached(registers.recovery) {
        return latched(registers, address, value);
    }
    if verifies(registers.control) {
        return sense_pending(registers, address, now);
    }
    registers
}

// A data write, once it has settled.
#[tactic(auto, unfolding(registers::specs::Latch::data_write))]
fn data_write(registers: Registers, address: u16, value: u8, now: Accepted) -> Registers
    ensures { result ≡ data_write address value now.time registers }
{
    if takes_data(registers, now.time) {
        return data_taken(registers, address, value, now);
    }
    registers
}

#[tactic(auto, unfolding(registers::specs::Latch::write8))]
pub fn write8(registers: Registers, address: u16, value: u8, now: Accepted) -> Registers
    ensures { result ≡ write8 address value now.time registers }
{
    data_write(registers.settled(now.time), address, value, now)
}
