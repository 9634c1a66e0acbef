// What a settle exposes.
ghost use Rattle.std.specs.Prelude.{◌<◌};
ghost use Rattle.time.specs.Raw.{span};

use cell::PAGE;
use control::Range;
use registers::Pulse;
use time::{Duration, Time};

// An exposure of a pulse's pages, with the latch that it goes by, for a length of time that is not 0.
#[derive(Clone, Copy)]
pub struct Exposure<'a> {
    pub pulse: Pulse,
    pub latch: &'a [u8; PAGE],
    pub length: Duration,
    pub ghost lasts: { 0 < span length },
}

impl Exposure<'_> {
    ghost use Rattle.std.specs.Prelude.{◌≡◌, Some, IfSome, MatchOption};
    ghost use Rattle.settle.specs.Pages.{Cells};
    ghost use Rattle.settle.specs.Settling.{covers, expose, settled_by};
    ghost use Rattle.settle.specs.Views.{after_exposure};

    // The exposure of a pulse for a length of time, and none for a length of 0, where nothing changes.
    #[tactic(auto, unfolding(crate::specs::Settling::expose))]
    pub fn lasting<'a>(
        pulse: Pulse,
        latch: &'a [u8; PAGE],
        length: Duration,
    ) -> Option<Exposure<'a>>
        ensures is { MatchOption result (span length ≡ 0) (λ e. (e.pulse ≡ pulse) × (e.latch.now ≡ latch.now) × (e.length ≡ length)) }
        ensures leaves { (c : Cells) → expose pulse latch.now (span length) c ≡ after_exposure result c }
    {
        if length.is_zero() {
            return None;
        }
        Some(Exposure {
            pulse,
            latch,
            length,
        })
    }

    // The exposure of a settle at a time, of the pulse that is open, from a last settling on.
    pub fn at<'a>(
        pulse: Option<Pulse>,
        latch: &'a [u8; PAGE],
        since: Time,
        time: Time,
    ) -> Option<Exposure<'a>>
        ensures settles { (c : Cells) → settled_by pulse latch.now since time c ≡ after_exposure result c }
        ensures same_pulse { IfSome result (λ exposure. pulse ≡ Some exposure.pulse) }
    {
        let pulse = pulse?;
        let ready = pulse.ready;
        let length = time.since(since.max(ready));
        Exposure::lasting(pulse, latch, length)
    }

    // Whether it reaches a page.
    #[tactic(auto, unfolding(crate::specs::Settling::covers))]
    pub fn covers(&self, page: usize) -> bool
        ensures { result ≡ covers self.now.pulse page }
    {
        let pulse = self.pulse;
        let range = Range {
            first: pulse.first,
            pages: pulse.pages,
        };
        range.covers(page)
    }
}
