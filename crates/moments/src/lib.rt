// A time as a history writes it.
#![tactic(auto)]

ghost use Rattle.std.specs.Prelude.{◌≡◌, ◌-◌, ◌^◌, ◌≤◌, Ok};
ghost use Rattle.moments.specs.Moments.{part_of, seconds, exactly, with_decimals, length_of, after_length, moment_of, exact_of};

use byte_search::find;
use digits::{NoNumber, decimal};
use time::{Duration, MICROS, MICROSECOND, Time};
use words::reason::Reason;

// A part of a word, which is a decimal number.
fn part_in(word: &[u8]) -> Result<u64, Reason>
    ensures { result ≡ part_of word.now }
{
    decimal(word).map_err(|why| match why {
        NoNumber::TooLarge => Reason::TooLarge,
        NoNumber::NotDigits => Reason::NoTime,
    })
}

// Whole seconds.
fn seconds_in(word: &[u8]) -> Result<Duration, Reason>
    ensures { result ≡ seconds (part_of word.now) }
{
    Ok(Duration(part_in(word)?, 0))
}

// Seconds and a fraction in raw units.
fn exactly_in(seconds: &[u8], fraction: &[u8]) -> Result<Duration, Reason>
    ensures { result ≡ exactly (part_of seconds.now) (part_of fraction.now) }
{
    Ok(Duration(part_in(seconds)?, part_in(fraction)?))
}

// How many microseconds the last of so many decimals is worth.
#[tactic(auto, using(crate::proofs::Words::worth_fits))]
fn worth(count: usize) -> u64
    requires { count ≤ 6 }
    ensures { result ≡ 10 ^ (6 - count) }
{
    10_u64.pow(6 - count as u32)
}

// Seconds and decimals, of which there are at most six.
#[tactic(auto, using(crate::proofs::Words::decimals))]
fn decimals_in(seconds: &[u8], decimals: &[u8]) -> Result<Duration, Reason>
    ensures { result ≡ with_decimals (part_of seconds.now) decimals.now }
{
    let whole = part_in(seconds)?;
    let count = decimals.len();
    if 6 < count {
        return Err(Reason::TooManyDecimals);
    }
    let n = part_in(decimals)?;
    let below = Duration::from_micros(n * worth(count));
    Ok(Duration(whole, below.1))
}

#[tactic(auto, unfolding(crate::specs::Moments::length_of))]
fn length_in(word: &[u8]) -> Result<Duration, Reason>
    ensures { result ≡ length_of word.now }
{
    if let Some(colon) = find(word, b':') {
        return exactly_in(&word[..colon], &word[colon + 1..]);
    }
    if let Some(point) = find(word, b'.') {
        return decimals_in(&word[..point], &word[point + 1..]);
    }
    seconds_in(word)
}

// A length after the time before, of which there has to be one.
fn after(earlier: Option<Time>, length: &[u8]) -> Result<Time, Reason>
    ensures { result ≡ after_length earlier (length_of length.now) }
{
    let before = earlier.ok_or(Reason::NoTimeBefore)?;
    let sum = before.checked_add(length_in(length)?);
    sum.ok_or(Reason::PastTheLastInstant)
}

// The time that a word stands for, after a line with a time or without one.
#[tactic(auto, unfolding(crate::specs::Moments::moment_of))]
pub fn moment_in(word: &[u8], earlier: Option<Time>) -> Result<Time, Reason>
    ensures { result ≡ moment_of earlier word.now }
{
    if let Some((b'+', length)) = word.split_first() {
        return after(earlier, length);
    }
    let length = length_in(word)?;
    Ok(Time(length.0, length.1))
}

// The microseconds that have a fraction of a second for theirs, if any have.
#[tactic(auto, unfolding(crate::specs::Moments::exact_of))]
pub fn micros_of(fraction: u64) -> Option<u64>
    ensures { result ≡ exact_of fraction }
{
    let n = fraction / MICROSECOND;
    (n < MICROS && Duration::from_micros(n).1 == fraction).then_some(n)
}
