// The open pulse, normal reading, and protection.
ghost use Rattle.std.specs.Prelude.{◌≡◌};
ghost use Rattle.registers.specs.Pulses.{ready_for, program_pulse, erase_pulse, may_pulse, powered, pulse, normal, tripped, protect, read8, read16};

use crate::{Pulse, Registers};
use bits::{SWE, has, opened_by};
use cell::{Direction, PAGE_BYTES};
use control::Supply;
use control::blocks::erase_range;
use time::Time;
use time::accepted::Accepted;
use waits::trip_wait;

impl Registers {
    // A pulse's ready instant, from its own.
    fn ready_for(self, own: Time) -> Time
        ensures { result ≡ ready_for own self }
    {
        own.max(self.swe_ready).max(self.ready).max(self.recovery)
    }

    fn program_pulse(self) -> Pulse
        ensures { result ≡ program_pulse self }
    {
        let ready = self.ready_for(self.program_ready);
        Pulse {
            direction: Direction::Program,
            first: self.page / PAGE_BYTES,
            pages: 1,
            ready,
        }
    }

    fn erase_pulse(self) -> Pulse
        ensures { result ≡ erase_pulse self }
    {
        let ready = self.ready_for(self.erase_ready);
        let range = erase_range(self.erase);
        Pulse {
            direction: Direction::Erase,
            first: range.first,
            pages: range.pages,
            ready,
        }
    }

    // Whether control can open a pulse.
    pub fn may_pulse(self) -> bool
        ensures { result ≡ may_pulse self }
    {
        !self.error & self.oscillator & (self.supply == Supply::Normal)
    }

    fn powered(self) -> bool
        ensures { result ≡ powered self }
    {
        self.may_pulse() & has(self.control, SWE)
    }

    // The open pulse.
    #[tactic(auto, unfolding(crate::specs::Pulses::pulse))]
    pub fn pulse(self) -> Option<Pulse>
        ensures { result ≡ pulse self }
    {
        if !self.powered() {
            return None;
        }
        match opened_by(self.control) {
            Some(Direction::Program) => Some(self.program_pulse()),
            Some(Direction::Erase) => Some(self.erase_pulse()),
            None => None,
        }
    }

    // Whether reading is normal.
    #[tactic(auto, unfolding(crate::specs::Pulses::normal))]
    pub fn normal(self, now: Time) -> bool
        ensures { result ≡ normal now self }
    {
        (self.control % 64 == 0)
            & (self.supply != Supply::Stopped)
            & now.reached(self.ready)
            & now.reached(self.recovery)
    }

    // What a tripped protection does to the registers.
    pub fn tripped(self, pulse: Option<Pulse>, now: Accepted) -> Registers
        ensures { result ≡ tripped pulse now.time self }
    {
        pulse.map_or(
            self,
            |p| Registers {
                error: true,
                recovery: self.recovery.max(now.after(trip_wait(p.direction))),
                ..self
            },
        )
    }

    #[tactic(auto, unfolding(crate::specs::Pulses::protect))]
    pub fn protect(self, now: Accepted) -> Registers
        ensures { result ≡ protect now.time self }
    {
        let pulse = self.pulse();
        if pulse.is_some() {
            return self.settled(now.time).tripped(pulse, now);
        }
        self
    }

    // What reading a byte does to the registers. Inlined: called, it copies them by `memmove`, for which a host of the archives in C has had no
    // need.
    #[inline(always)]
    #[tactic(auto, unfolding(crate::specs::Pulses::read8))]
    pub fn read8(self, now: Accepted) -> Registers
        ensures { result ≡ read8 now.time self }
    {
        if self.normal(now.time) {
            return self;
        }
        let pulse = self.pulse();
        self.settled(now.time).tripped(pulse, now)
    }

    // What reading a word does to the registers.
    #[tactic(auto, unfolding(crate::specs::Pulses::read16))]
    pub fn read16(self, now: Accepted) -> Registers
        ensures { result ≡ read16 now.time self }
    {
        if self.normal(now.time) {
            return self;
        }
        self.read8(now).read8(now)
    }
}
