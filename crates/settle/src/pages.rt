// Pages and slots: where a cell's charge stands, and which slot a page takes.
ghost use Rattle.std.specs.Prelude.{◌≡◌, true, suc, ◌<◌, ◌≤◌, length, MatchOption};
ghost use Rattle.time.specs.Raw.{span};
ghost use Rattle.cell.specs.Cell.{pages};
ghost use Rattle.settle.specs.Pages.{opened, slot_for, on_page, slots_sound};
ghost use Rattle.settle.specs.Settling.{charged};
ghost use Rattle.settle.specs.Views.{cells_of, Lengths};

use cell::PAGE;
use charging::{charge_slot, open_slot};
use registers::Pulse;
use time::Duration;

// How many pages are opened, counted as wide as an entry, so that many entries are tested at once. The length is asked for as a clause: any
// index is counted, sound or not.
pub fn opened(indices: &[u16]) -> usize
    requires { length indices.now ≡ pages }
    ensures { (result ≡ opened indices.now) × (result ≤ pages) }
{
    let mut n: u16 = 0;
    for entry in indices {
        if *entry != 0 {
            n += 1;
        }
    }
    usize::from(n)
}

// The slot that an entry of the page index tells, and none of a page without charges.
pub fn slot_in(entry: u16) -> Option<usize>
    ensures { MatchOption result (entry ≡ 0) (λ slot. entry ≡ suc slot) }
{
    usize::from(entry).checked_sub(1)
}

// The entry of a page that has a slot.
pub fn entry_of(slot: usize) -> u16
    requires { slot < pages }
    ensures { result ≡ suc slot }
{
    (slot + 1) as u16
}

// A page takes its slot, the next one if it has none, and its cells are charged there. The answer is the slot.
// Index, array and charges apart: the array is only read, and a CellsMut would ask for it to be lent to be changed.
pub fn charge_page(
    index: &mut [u16],
    array: &[u8],
    charges: &mut [u64],
    page: usize,
    next: usize,
    pulse: Pulse,
    latch: &[u8; PAGE],
    lasting: Duration,
) -> usize
    requires { Lengths index.old array.now charges.old × (slots_sound index.old ≡ true) × (page < pages) × (next ≡ opened index.old) }
    ensures index { index.new ≡ (on_page (charged pulse latch.now (span lasting)) page (cells_of index.old array.now charges.old)).index }
    ensures charges { charges.new ≡ (on_page (charged pulse latch.now (span lasting)) page (cells_of index.old array.now charges.old)).charges }
    ensures slot { result ≡ slot_for index.old page }
{
    let direction = pulse.direction;
    let Some(slot) = slot_in(index[page]) else {
        let (stored, _) = array.as_chunks::<PAGE>();
        open_slot(charges, next, &stored[page]);
        index[page] = entry_of(next);
        charge_slot(charges, next, latch, direction, lasting);
        return next;
    };
    charge_slot(charges, slot, latch, direction, lasting);
    slot
}
