// What the history begins with: an empty flash, an image, or a snapshot.
ghost use Rattle.lent.specs.Views.{SameLent};

use crate::reading::{opened, read_full};
use crate::saying::{say_image_length, say_no_snapshot};
use crate::{Outlets, Told};
use cell::FLASH_SIZE;
use lent::making::make;
use lent::memory::LentMut;
use lent::opening::opened_record;
use options::Beginning;
use restore::read_snapshot;
use slices::first;
use std::rt::Files;
use time::Time;

// A new array. It is refused only where lent memory has not its lengths, which a run's has: that alone is not said.
fn begin_with(firmware: &[u8], memory: &mut LentMut) -> Result<(), Told>
    ensures { SameLent memory.old memory.new }
{
    let charges = memory.charges.len();
    make(firmware, memory.record, memory.array, charges).map_err(|_| Told)
}

// Every byte FF.
fn begin_empty(memory: &mut LentMut) -> Result<(), Told>
    ensures { SameLent memory.old memory.new }
{
    begin_with(&[0xFF; FLASH_SIZE], memory)
}

// A file's bytes, in the buffer, unless it can't be opened.
fn load<'a, R: Files, S: Print>(
    outlets: Outlets<R, S>,
    path: &[u8],
    buffer: &'a mut [u8],
) -> Result<&'a [u8], Told> {
    let mut file = opened(outlets, path)?;
    let n = read_full(&mut file, buffer);
    Ok(first(buffer, n))
}

fn begin_from_image<R: Files, S: Print>(
    outlets: Outlets<R, S>,
    path: &[u8],
    memory: &mut LentMut,
    buffer: &mut [u8],
) -> Result<(), Told>
    ensures { SameLent memory.old memory.new }
{
    let image = load(outlets, path, buffer)?;
    if image.len() != FLASH_SIZE {
        say_image_length(outlets.says, path, image.len() as u64);
        return Err(Told);
    }
    begin_with(image, memory)
}

// A snapshot is taken at the last instant that is accepted. Each call then has to come after its last settling.
fn begin_from_snapshot<R: Files, S: Print>(
    outlets: Outlets<R, S>,
    path: &[u8],
    memory: &mut LentMut,
    buffer: &mut [u8],
) -> Result<(), Told>
    ensures { SameLent memory.old memory.new }
{
    let snapshot = load(outlets, path, buffer)?;
    let last = Time(u64::MAX - 1, u64::MAX);
    read_snapshot(snapshot, memory, last).map_err(|refusal| {
        say_no_snapshot(outlets.says, path, refusal);
        Told
    })
}

// A run begins with what its options name.
pub fn begin<R: Files, S: Print>(
    outlets: Outlets<R, S>,
    begins: Beginning,
    memory: &mut LentMut,
    buffer: &mut [u8],
) -> Result<(), Told>
    ensures { SameLent memory.old memory.new }
{
    match begins {
        Beginning::Empty => begin_empty(memory),
        Beginning::Image(path) => begin_from_image(outlets, path, memory, buffer),
        Beginning::Snapshot(path) => begin_from_snapshot(outlets, path, memory, buffer),
    }
}

// The last settling of what the history begins with: the verdict's time where no call is made.
pub fn last_settling(record: &[u8]) -> Time {
    opened_record(record).map_or(Time(0, 0), |flash| flash.pulse_since)
}
