// A flash that is read from lent memory, with what stays lent.
ghost use Rattle.flash.specs.Chip.{chip, Fit};

use crate::Flash;
use settle::cells::CellsRef;

// The state and the memory that it fits: the array and the charge store have their lengths, slots are one-to-one with opened pages, and the
// pulse and the pending sense lie inside the array.
#[derive(Clone, Copy)]
pub struct Held<'a> {
    pub flash: Flash,
    pub array: &'a [u8],
    pub charges: &'a [u64],
    pub ghost fit: { Fit (chip flash array.now charges.now) },
}

impl Held<'_> {
    ghost use Rattle.std.specs.Prelude.{◌≡◌};
    ghost use Rattle.settle.specs.Views.{cells_in};
    ghost use Rattle.flash.specs.Chip.{cells};
    ghost use Rattle.flash.specs.Views.{chip_of};

    // Where its charges are read.
    pub fn cells(&self) -> CellsRef<'_>
        ensures { cells_in result ≡ cells (chip_of self.now) }
    {
        CellsRef {
            index: &self.flash.indices,
            array: self.array,
            charges: self.charges,
        }
    }
}
