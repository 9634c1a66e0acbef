// Instants and lengths of time, in raw units of 2^-64 s. `u128` of the original is two 64-bit halves here:
// whole seconds and a fraction. The record and the host take the halves, so nothing here would have use of the whole number.
#![tactic(auto)]

pub mod accepted;
pub mod halves;

ghost use Rattle.std.specs.Prelude.{◌≡◌, ◌-◌, ◌^◌, ltb, leb, eqb, MatchOption};
ghost use Rattle.time.specs.Raw.{raw, span, later, added, since, micros};

use crate::accepted::Accepted;

// An instant: whole seconds, and a fraction of a second.
#[derive(Clone, Copy, Debug, PartialEq, Eq, PartialOrd, Ord)]
pub struct Time(pub u64, pub u64);

// A length of time, in the same units. A kind of its own: nothing takes one for the other.
#[derive(Clone, Copy, Debug, PartialEq, Eq, PartialOrd, Ord)]
pub struct Duration(pub u64, pub u64);

// Microseconds in a second, and one of them in raw units.
pub const MICROS: u64 = 1_000_000;

pub const MICROSECOND: u64 = 18446744073709;

impl Time {
    // Whether this instant is earlier than another.
    pub fn earlier(self, other: Time) -> bool
        ensures { result ≡ ltb (raw self) (raw other) }
    {
        self < other
    }

    // Whether this instant is at or past another.
    pub fn reached(self, at: Time) -> bool
        ensures { result ≡ leb (raw at) (raw self) }
    {
        self >= at
    }

    // The later of two instants.
    pub fn max(self, other: Time) -> Time
        ensures { result ≡ later self other }
    {
        Ord::max(self, other)
    }

    // The instant a length of time after this one, or none where it would pass the last instant.
    pub fn checked_add(self, d: Duration) -> Option<Time>
        ensures { result ≡ added self d }
    {
        let (low, carry) = self.1.carrying_add(d.1, false);
        let (high, over) = self.0.carrying_add(d.0, carry);
        (!over).then_some(Time(high, low))
    }

    // This instant as an accepted time: none in the last second.
    pub fn accepted(self) -> Option<Accepted>
        ensures { MatchOption result (self.0 ≡ 2 ^ 64 - 1) (λ now. now.time ≡ self) }
    {
        if self.0 == u64::MAX {
            return None;
        }
        Some(Accepted { time: self })
    }

    // The time from an earlier instant to this one, 0 if negative.
    pub fn since(self, from: Time) -> Duration
        ensures { result ≡ since self from }
    {
        let (low, borrow) = self.1.borrowing_sub(from.1, false);
        let (high, below) = self.0.borrowing_sub(from.0, borrow);
        if below {
            Duration(0, 0)
        } else {
            Duration(high, low)
        }
    }
}

impl Duration {
    // N microseconds, rounded down to a raw unit: 2^64 is 18446744073709 millions and 551616.
    pub fn from_micros(n: u64) -> Duration
        ensures { result ≡ micros n }
    {
        let part = n % MICROS;
        Duration(n / MICROS, part * MICROSECOND + part * 551616 / MICROS)
    }

    pub fn is_zero(self) -> bool
        ensures { result ≡ eqb (span self) 0 }
    {
        self == Duration(0, 0)
    }
}
