// An instant in bytes, as its number of raw units: the low byte first, so that the fraction stands before the whole seconds.
ghost use Rattle.std.specs.Prelude.{map, refl};
ghost use Rattle.time.specs.Raw.{raw};

use crate::numbers::Number;
use time::Time;

impl Number for Time {
    ghost WIDTH = { 16 };

    ghost number = { raw };

    ghost numbers = { λ times. map raw times };

    ghost each = { λ times. refl };

    const WIDTH: usize = 16;

    fn get(from: &[u8], at: usize) -> Time {
        let fraction = u64::get(from, at);
        let seconds = u64::get(from, at + u64::WIDTH);
        Time(seconds, fraction)
    }

    fn put(self, to: &mut [u8], at: usize) {
        let Time(seconds, fraction) = self;
        fraction.put(to, at);
        seconds.put(to, at + u64::WIDTH);
    }
}
