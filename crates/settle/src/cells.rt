// The cells to be read or to be changed: the page index, the array and the charge store.
ghost use Rattle.std.specs.Prelude.{◌≡◌, true, length};
ghost use Rattle.cell.specs.Cell.{array_bytes, array_cells, pages};
ghost use Rattle.settle.specs.Pages.{slots_sound};

use crate::pages::slot_in;
use cell::PAGE_CELLS;
use charging::{bit, first_charge};
use std::array::from_fn;

// Memory from which charges are read. It has its lengths, and used slots are one-to-one with opened pages.
#[derive(Clone, Copy)]
pub struct CellsRef<'a> {
    pub index: &'a [u16],
    pub array: &'a [u8],
    pub charges: &'a [u64],
    pub ghost index_long: { length index.now ≡ pages },
    pub ghost array_long: { length array.now ≡ array_bytes },
    pub ghost charges_long: { length charges.now ≡ array_cells },
    pub ghost sound: { slots_sound index.now ≡ true },
}

impl CellsRef<'_> {
    ghost use Rattle.std.specs.Prelude.{◌<◌, ◌+◌, ◌*◌};
    ghost use Rattle.lists.specs.Lists.{tabulate};
    ghost use Rattle.settle.specs.Pages.{cell_at};
    ghost use Rattle.settle.specs.Views.{cells_in};

    // The charge of the cell i.
    pub fn charge(&self, i: usize) -> u64
        requires { i < array_cells }
        ensures { result ≡ cell_at (cells_in self.now) i }
    {
        match slot_in(self.index[i / PAGE_CELLS]) {
            None => first_charge(bit(self.array[i / 8], i % 8)),
            Some(slot) => self.charges[slot * PAGE_CELLS + i % PAGE_CELLS],
        }
    }

    // The charges of the eight cells of the byte at an address.
    pub fn of_byte(&self, address: usize) -> [u64; 8]
        requires { address < array_bytes }
        ensures { result ≡ tabulate (λ k. cell_at (cells_in self.now) (8 * address + k)) 8 }
    {
        from_fn(|k| self.charge(8 * address + k))
    }
}

// The same to be changed. What is known of it holds after each change.
#[derive(Drop)]
pub struct CellsMut<'a> {
    pub index: &'a mut [u16],
    pub array: &'a mut [u8],
    pub charges: &'a mut [u64],
    pub ghost index_long: { length index.now ≡ pages },
    pub ghost array_long: { length array.now ≡ array_bytes },
    pub ghost charges_long: { length charges.now ≡ array_cells },
    pub ghost sound: { slots_sound index.now ≡ true },
}

impl CellsMut<'_> {
    ghost use Rattle.settle.specs.Views.{cells_in, cells_at};

    // The same to be read.
    pub fn seen(&self) -> CellsRef<'_>
        ensures { cells_in result ≡ cells_at self.now }
    {
        CellsRef {
            index: &*self.index,
            array: &*self.array,
            charges: &*self.charges,
        }
    }
}
