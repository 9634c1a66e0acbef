// The picture: a shade for each cell, by its charge.
ghost use Rattle.std.specs.Prelude.{◌≡◌, ◌≤◌, length};
ghost use Rattle.cell.specs.Cell.{array_cells};
ghost use Rattle.settle.specs.Pages.{cell_at};
ghost use Rattle.flash.specs.Views.{chip_of};
ghost use Rattle.look.specs.Views.{cells_after};
ghost use Rattle.picture.specs.Outputs.{written};
ghost use Rattle.picture.specs.Shades.{shade_of, shade_at};

use cell::{CELLS, FULL};
use flash::held::Held;
use look::looking::View;
use time::Time;

// From one shade to the next it takes FULL / 255, which is this less 1/51: the shade s begins at s steps less floor(s / 51), and no product
// passes 64 bits.
const STEP: u64 = 50638120986653671;

// The shade of a charge.
#[tactic(auto, using(crate::proofs::Steps::shades))]
pub fn shade(charge: u64) -> u8
    ensures { result ≡ shade_of charge }
{
    if FULL <= charge {
        return 255;
    }
    let low = charge / STEP;
    let next = low + 1;
    if next * STEP - next / 51 <= charge {
        return next as u8;
    }
    low as u8
}

// The shades of all cells of a view, into `out`, whose bytes past them stay: so it is a slice with room, and no array.
#[tactic(auto, using(crate::proofs::Written::writes))]
fn write_exposed(view: &View, out: &mut [u8])
    requires { array_cells ≤ length out.old }
    ensures { out.new ≡ written (λ i. shade_of (cell_at (cells_after view.now) i)) array_cells out.old }
{
    for i in 0..CELLS {
        out[i] = shade(view.charge(i));
    }
}

// The shades of all cells at a time, into `out`, whose bytes past them stay.
#[tactic(auto, unfolding(crate::specs::Shades::shade_at, flash::specs::Looking::charge_at))]
pub fn write_shades(held: &Held, time: Time, out: &mut [u8])
    requires { array_cells ≤ length out.old }
    ensures { out.new ≡ written (shade_at time (chip_of held.now)) array_cells out.old }
{
    write_exposed(&View::at(held, time), out);
}
