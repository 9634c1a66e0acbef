// A time in seconds, and exactly as a history may write it.
ghost use Rattle.moments.specs.Moments.{exact_of};
ghost use Rattle.text.specs.Says.{Says};
ghost use Rattle.std.specs.Prelude.{◌≡◌};
ghost use Rattle.sayings.specs.Sayings.{microsecond_in, fraction_said, instant_said};

use moments::micros_of;
use text::Text;
use time::{MICROS, MICROSECOND, Time};

// The microsecond of a second in which a fraction lies.
fn microsecond_in(fraction: u64) -> u64
    ensures { result ≡ microsecond_in fraction }
{
    (fraction / MICROSECOND).min(MICROS - 1)
}

fn put_fraction(text: &mut Text, time: Time)
    ensures { Says (fraction_said (exact_of time.1) time.0 time.1) text.old text.new }
{
    let Time(seconds, fraction) = time;
    match micros_of(fraction) {
        Some(n) => text.say(b".^", &[n]),
        None => text.say(b".^ (%:%)", &[microsecond_in(fraction), seconds, fraction]),
    }
}

pub fn instant(text: &mut Text, time: Time)
    ensures { Says (instant_said time.0 time.1) text.old text.new }
{
    let Time(seconds, fraction) = time;
    text.say(b"%", &[seconds]);
    if fraction != 0 {
        put_fraction(text, time);
    }
}
