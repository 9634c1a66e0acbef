// Whether a state is one that a snapshot may hold at a time.
ghost use Rattle.std.specs.Prelude.{◌≡◌};
ghost use Rattle.layout.specs.Layout.{decoded};
ghost use Rattle.refusal.specs.Refusal.{Answers};
ghost use Rattle.snapshot.specs.Asked.{pending_placed, valid_but_erase, erase_valid, valid, valid_refusal};

use cell::PAGE_BYTES;
use checks::{legible, placed};
use coding::read;
use control::PendingSense;
use flash::Flash;
use lent::opening::sized_record;
use refusal::Refusal;
use time::Time;

// A pending sense is of four aligned bytes inside the array.
fn pending_placed(pending: Option<PendingSense>) -> bool
    ensures { result ≡ pending_placed pending }
{
    pending.is_none_or(|sense| placed(sense.address, 4))
}

// Control has no bit that is none, page and pending address are aligned and inside, the last settling is not past the time.
#[tactic(auto, unfolding(snapshot::specs::Asked::valid_but_erase))]
pub fn valid_but_erase(time: Time, flash: Flash) -> bool
    ensures { result ≡ valid_but_erase time flash }
{
    let registers = flash.registers;
    (registers.control < 128)
        & placed(registers.page, PAGE_BYTES)
        & pending_placed(registers.verify_pending)
        & time.reached(flash.pulse_since)
}

// Erase has no bit that is none.
pub fn erase_valid(flash: Flash) -> bool
    ensures { result ≡ erase_valid flash }
{
    flash.registers.erase < 64
}

#[tactic(auto, unfolding(snapshot::specs::Asked::valid))]
pub fn valid(time: Time, flash: Flash) -> bool
    ensures { result ≡ valid time flash }
{
    valid_but_erase(time, flash) & erase_valid(flash)
}

// Whether a record's state is valid at a time: what this tests is not refused by 3, nor a time before the last settling by 6.
#[tactic(auto, unfolding(snapshot::specs::Asked::valid_refusal))]
pub fn see_valid(record: &[u8], time: Time) -> Result<bool, Refusal>
    ensures { Answers (valid_refusal «record».now time) (valid time (decoded «record».now)) result }
{
    let record = sized_record(record)?;
    if !legible(record) {
        return Err(Refusal::Record);
    }
    time.accepted().ok_or(Refusal::LastSecond)?;
    Ok(valid(time, read(record)))
}
