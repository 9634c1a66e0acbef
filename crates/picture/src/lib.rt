// What a look shows of all pages or all cells at once: the map's marks of an opened state, and the picture's shades over lent memory, by the
// checks of a look, then that the output has room, then the answer. Nothing is kept.
#![tactic(auto)]

pub mod cells;
pub mod marks;
pub mod shades;

ghost use Rattle.std.specs.Prelude.{◌≡◌, length};
ghost use Rattle.refusal.specs.Refusal.{told};
ghost use Rattle.cell.specs.Cell.{array_cells};
ghost use Rattle.lent.specs.Memory.{chip_in};
ghost use Rattle.lent.specs.Looked.{output_refusal};
ghost use Rattle.lent.specs.Views.{memory_in};
ghost use Rattle.picture.specs.Outputs.{output_left};
ghost use Rattle.picture.specs.Shades.{shade_at};

use crate::shades::write_shades;
use cell::CELLS;
use lent::memory::Lent;
use refusal::Refusal;
use time::Time;

// A shade for each cell at a time, written to the output.
pub fn see_shades(lent: Lent, time: Time, out: &mut [u8]) -> Result<(), Refusal>
    ensures refused { told result ≡ output_refusal array_cells time (length out.old) (memory_in lent.entry) }
    ensures left { out.new ≡ output_left (told result) (shade_at time (chip_in (memory_in lent.entry))) array_cells out.old }
{
    let held = lent.opened_with_room(time, CELLS, out.len())?;
    write_shades(&held, time, out);
    Ok(())
}
