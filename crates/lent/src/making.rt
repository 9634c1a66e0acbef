// A new array from firmware.
ghost use Rattle.std.specs.Prelude.{◌≡◌, length};
ghost use Rattle.refusal.specs.Refusal.{told};
ghost use Rattle.flash.specs.Chip.{fresh_flash};
ghost use Rattle.lent.specs.Looked.{new_refusal, new_record, new_array};

use crate::checking::sizes_misfit;
use cell::{FLASH_SIZE, PAGES};
use coding::write;
use flash::{BLANK_SENSED, Flash};
use refusal::Refusal;
use registers::Registers;
use time::Time;

// A fresh state: nothing opened, sensed FF, last settling 0.
fn fresh() -> Flash
    ensures { result ≡ fresh_flash }
{
    Flash {
        registers: Registers::new(),
        pulse_since: Time(0, 0),
        sensed: BLANK_SENSED,
        indices: [0u16; PAGES],
    }
}

// Bytes copied into as many. In a loop: `copy_from_slice` would have a C host's archive need `memmove`, and `memcpy` does.
pub fn copy(from: &[u8], to: &mut [u8])
    requires { length from.now ≡ length to.old }
    ensures { to.new ≡ from.now }
{
    for (i, byte) in from.iter().enumerate() {
        to[i] = *byte;
    }
}

// A new array: record and array are written, the charge store keeps its numbers.
#[tactic(auto, unfolding(crate::specs::Looked::new_refusal))]
pub fn make(
    firmware: &[u8],
    record: &mut [u8],
    array: &mut [u8],
    charges: usize,
) -> Result<(), Refusal>
    ensures refused { told result ≡ new_refusal firmware.now (length «record».old) (length array.old) charges }
    ensures bytes { «record».new ≡ new_record (told result) «record».old }
    ensures array { array.new ≡ new_array (told result) firmware.now array.old }
{
    if firmware.len() != FLASH_SIZE {
        return Err(Refusal::Firmware);
    }
    if sizes_misfit(record.len(), array.len(), charges) {
        return Err(Refusal::Memory);
    }
    write(record, fresh());
    copy(firmware, array);
    Ok(())
}
