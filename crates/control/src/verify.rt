// The pending verify sense: when it is due, and when it is dropped.
ghost use Rattle.std.specs.Prelude.{◌≡◌};
ghost use Rattle.control.specs.Verify.{sense_due, pending_after};

use crate::{PendingSense, Supply};
use time::Time;

// Whether a pending sense is due at a settle.
pub fn sense_due(pending: Option<PendingSense>, supply: Supply, now: Time) -> bool
    ensures { result ≡ sense_due pending supply now }
{
    pending.is_some_and(|sense| now.reached(sense.at) & (supply != Supply::Stopped))
}

// The pending sense after control goes from `old` to `new`.
pub fn pending_after(old: u8, new: u8, pending: Option<PendingSense>) -> Option<PendingSense>
    ensures { result ≡ pending_after old new pending }
{
    if old % 16 == new % 16 { pending } else { None }
}
