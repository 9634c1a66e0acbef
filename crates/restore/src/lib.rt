// Reading a snapshot: it is gone through twice, first to judge it, then to take it, so that a refusal changes nothing.
#![tactic(auto)]

pub mod loading;
pub mod validity;

ghost use Rattle.std.specs.Prelude.{◌≡◌, false};
ghost use Rattle.lent.specs.Memory.{misfits};
ghost use Rattle.lent.specs.Views.{memory_at, SameLent};
ghost use Rattle.refusal.specs.Refusal.{told};
ghost use Rattle.snapshot.specs.Asked.{read_refusal, memory_read};
ghost use Rattle.snapshot.specs.Places.{place_judged, place_read};

use crate::loading::{flash_at, load_pages};
use crate::validity::valid;
use cell::FLASH_SIZE;
use coding::write;
use lent::making::copy;
use lent::memory::LentMut;
use refusal::Refusal;
use scan::scan;
use scan::scanned::Scanned;
use time::Time;

// A snapshot whose fields are all good is taken, unless bytes are left over or its state is not valid.
fn take(snapshot: &Scanned, memory: &mut LentMut, time: Time) -> Result<(), Refusal>
    requires { misfits (memory_at memory.old) ≡ false }
    ensures same { SameLent memory.old memory.new }
    ensures judged { told result ≡ place_judged time snapshot.now.bytes.now }
    ensures left { memory_at memory.new ≡ place_read (told result) snapshot.now.bytes.now (memory_at memory.old) }
{
    let state = snapshot.state();
    if state.end() < snapshot.bytes.len() {
        return Err(Refusal::LeftOver);
    }
    let flash = flash_at(state, snapshot.indices);
    if !valid(time, flash) {
        return Err(Refusal::Invalid);
    }
    copy(&snapshot.bytes[0..FLASH_SIZE], memory.array);
    load_pages(snapshot.bytes, snapshot.count(), memory.charges);
    write(memory.record, flash);
    Ok(())
}

// A refusal leaves all as it was.
pub fn read_snapshot(bytes: &[u8], memory: &mut LentMut, time: Time) -> Result<(), Refusal>
    ensures same { SameLent memory.old memory.new }
    ensures refused { told result ≡ read_refusal time bytes.entry.now (memory_at memory.old) }
    ensures left { memory_at memory.new ≡ memory_read (told result) bytes.entry.now (memory_at memory.old) }
{
    if memory.seen().misfits() {
        return Err(Refusal::Memory);
    }
    time.accepted().ok_or(Refusal::LastSecond)?;
    take(&scan(bytes)?, memory, time)
}
