// The waits, in microseconds, and the instants that they set.
#![tactic(auto)]

ghost use Rattle.std.specs.Prelude.{◌≡◌, ◌<◌};
ghost use Rattle.time.specs.Raw.{micros_per_second};
ghost use Rattle.control.specs.Waits.{raised, renewed, recovery_after, verify_ready_after, trip_wait};

use bits::{E, ESU, EV, P, PSU, PV, SWE, falls, has};
use cell::Direction;
use time::Time;
use time::accepted::Accepted;

// Recovery after bits of control fall: P or PSU, E or ESU, PV, EV, SWE. A tripped pulse waits as if its bit fell.
pub const PROGRAM_FALL: u64 = 5;

pub const ERASE_FALL: u64 = 10;

pub const PV_FALL: u64 = 2;

pub const EV_FALL: u64 = 4;

pub const SWE_FALL: u64 = 100;

// Until a risen bit is ready.
pub const SWE_RISE: u64 = 1;

pub const PSU_RISE: u64 = 50;

pub const ESU_RISE: u64 = 100;

pub const PV_RISE: u64 = 4;

pub const EV_RISE: u64 = 20;

// From a data write to its verify sense.
pub const SENSE: u64 = 2;

// Until the array is ready after a change of supply.
pub const SUPPLY_CHANGE: u64 = 20;

// An instant raised to at least now plus n microseconds, if due.
pub fn raised(due: bool, n: u64, now: Accepted, t: Time) -> Time
    requires { n < micros_per_second }
    ensures { result ≡ raised due n now.time t }
{
    if due { t.max(now.after(n)) } else { t }
}

// An instant set to now plus n microseconds, if due.
pub fn renewed(due: bool, n: u64, now: Accepted, t: Time) -> Time
    requires { n < micros_per_second }
    ensures { result ≡ renewed due n now.time t }
{
    if due { now.after(n) } else { t }
}

// The recovery instant after control goes from `old` to `new`. Inlined: called, a light write (`light`) would have its settings in memory.
#[inline(always)]
#[tactic(auto, unfolding(control::specs::Waits::recovery_after))]
pub fn recovery_after(old: u8, new: u8, now: Accepted, t: Time) -> Time
    ensures { result ≡ recovery_after old new now.time t }
{
    let program = falls(P, old, new) | falls(PSU, old, new);
    let erase = falls(E, old, new) | falls(ESU, old, new);
    let a = raised(program, PROGRAM_FALL, now, t);
    let b = raised(erase, ERASE_FALL, now, a);
    let c = raised(falls(PV, old, new), PV_FALL, now, b);
    let d = raised(falls(EV, old, new), EV_FALL, now, c);
    raised(falls(SWE, old, new), SWE_FALL, now, d)
}

// The verify-ready instant after control goes from `old` to `new`.
#[tactic(auto, unfolding(control::specs::Waits::verify_ready_after))]
pub fn verify_ready_after(old: u8, new: u8, now: Accepted, t: Time) -> Time
    ensures { result ≡ verify_ready_after old new now.time t }
{
    let due = falls(PV, new, old) | falls(EV, new, old);
    if has(new, EV) {
        renewed(due, EV_RISE, now, t)
    } else {
        renewed(due, PV_RISE, now, t)
    }
}

// The wait in microseconds before the array recovers from a tripped pulse.
pub fn trip_wait(direction: Direction) -> u64
    ensures { result ≡ trip_wait direction }
{
    match direction {
        Direction::Program => PROGRAM_FALL,
        Direction::Erase => ERASE_FALL,
    }
}
