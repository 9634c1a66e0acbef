// Light calls, register writes without an open pulse, run one after the other on the few registers that they change.
#![tactic(auto)]

ghost use Rattle.std.specs.Prelude.{◌≡◌, cond, ◌*◌, ◌≤◌, length};
ghost use Rattle.listing.specs.Held.{Onward};
ghost use Rattle.light.specs.Writes.{lit, opens, is_light, since_after};

use access::{Settings, settings_of, with_settings, write};
use bits::{FENR, SWE, has, opened_by};
use flash::Flash;
use listing::{KIND, NUMBERS, first_in, second_in};
use time::Time;
use time::accepted::Accepted;

// Where a run of light calls comes to: the state, and the first call that is not done.
#[derive(Clone, Copy)]
pub struct Ahead {
    pub flash: Flash,
    pub done: usize,
}

fn opens(may: bool, control: u8) -> bool
    ensures { result ≡ opens may control }
{
    may & has(control, SWE) & opened_by(control).is_some()
}

#[tactic(auto, unfolding(crate::specs::Writes::is_light))]
fn is_light(may: bool, control: u8, since: Time, what: u64, now: Time) -> bool
    ensures { result ≡ is_light may control since what now }
{
    (what < KIND) & now.accepted().is_some() & !now.earlier(since) & !opens(may, control)
}

// One of two numbers. An instant is picked by halves: picked whole it would go through memory.
fn picked(first: bool, a: u64, b: u64) -> u64
    ensures { result ≡ cond first a b }
{
    if first { a } else { b }
}

fn since_after(enabled: bool, address: u16, since: Time, now: Time) -> Time
    ensures { result ≡ since_after enabled address since now }
{
    let settles = (address != FENR) & enabled;
    Time(
        picked(settles, now.0, since.0),
        picked(settles, now.1, since.1),
    )
}

// The state with these settings, last settled then.
fn lit(flash: Flash, settings: Settings, since: Time) -> Flash
    ensures { result ≡ lit flash settings since }
{
    let registers = with_settings(settings, flash.registers);
    Flash {
        registers,
        pulse_since: since,
        ..flash
    }
}

// A list may hold any number of calls: that those before `end` lie in it is a fact of the two, here and below.
fn run_writes(flash: Flash, calls: &[u64], from: usize, end: usize) -> Ahead
    requires { (3 * end ≤ length calls.now) × (flash.registers.verify_pending ≡ None) }
    ensures { Onward end calls.now from flash result.done result.flash }
{
    let may = flash.registers.may_pulse();
    let mut settings = settings_of(flash.registers);
    let mut since = flash.pulse_since;
    let (numbers, _) = calls.as_chunks::<NUMBERS>();
    for i in from..end {
        let [what, seconds, fraction] = numbers[i];
        let time = Time(seconds, fraction);
        if !is_light(may, settings.control, since, what, time) {
            return Ahead {
                flash: lit(flash, settings, since),
                done: i,
            };
        }
        // Taken apart here and not by `request_in`: only register writes are light, and the others are told by one comparison.
        let address = first_in(what);
        let value = second_in(what);
        since = since_after(settings.enabled, address, since, time);
        // A light call is before the last second.
        let now = Accepted { time };
        settings = write(settings, address, value, now);
    }
    Ahead {
        flash: lit(flash, settings, since),
        done: from.max(end),
    }
}

// The light calls at the front of those that are left. With a sense pending none is tried.
pub fn run_light(flash: Flash, calls: &[u64], from: usize, end: usize) -> Ahead
    requires { 3 * end ≤ length calls.now }
    ensures { Onward end calls.now from flash result.done result.flash }
{
    if flash.registers.verify_pending.is_some() {
        return Ahead { flash, done: from };
    }
    run_writes(flash, calls, from, end)
}
