// Accepted times: those before the last second.
ghost use Rattle.std.specs.Prelude.{◌≡◌, ◌<◌};
ghost use Rattle.time.specs.Raw.{after, micros_per_second, BeforeLastSecond};

use crate::{Duration, Time};

// A time that was tested: every wait below a second from it has its sum.
#[derive(Clone, Copy)]
pub struct Accepted {
    pub time: Time,
    pub ghost before_last_second: { BeforeLastSecond time },
}

impl Accepted {
    // The instant n microseconds after this one, for a wait below one second.
    #[tactic(auto, using(crate::proofs::Laws::after_added))]
    pub fn after(self, n: u64) -> Time
        requires { n < micros_per_second }
        ensures { result ≡ after self.time n }
    {
        let sum = self.time.checked_add(Duration::from_micros(n));
        sum.unwrap_or(self.time)
    }
}
