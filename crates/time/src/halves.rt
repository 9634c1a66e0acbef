// An instant as two numbers, as the record and a list of calls have it: whole seconds, and then the fraction.
ghost use Rattle.std.specs.Prelude.{◌≡◌, [], ◌∷◌};

use crate::Time;

impl From<Time> for [u64; 2] {
    ghost from_gives = { λ time halves. halves ≡ time.0 ∷ time.1 ∷ [] };

    fn from(time: Time) -> [u64; 2] {
        [time.0, time.1]
    }
}

impl From<[u64; 2]> for Time {
    ghost from_gives = { λ halves time. halves ≡ time.0 ∷ time.1 ∷ [] };

    fn from(halves: [u64; 2]) -> Time {
        Time(halves[0], halves[1])
    }
}
