// What a pulse does to charges: the rule of one cell, a page's first charges, and one page of the charge store.
#![tactic(auto)]

ghost use Rattle.std.specs.Prelude.{◌≡◌, ◌-◌, ◌*◌, ◌^◌, ◌<◌, min, length};
ghost use Rattle.cell.specs.Cell.{bit, page_bit, rate, moved, exposed, first_charge, opened_page, opened_slot, charged_page, charged_slot, page_cells, array_cells, pages};
ghost use Rattle.time.specs.Raw.{span};

use cell::{Direction, FULL, PAGE, PAGE_CELLS};
use time::Duration;

// By how much a pulse moves a cell in a raw unit of time.
fn rate(direction: Direction) -> u64
    ensures { result ≡ rate direction }
{
    match direction {
        Direction::Program => 100,
        Direction::Erase => 7,
    }
}

// By how much an exposure moves a cell, clipped to 64 bits: no charge can move further.
fn amount(direction: Direction, lasting: Duration) -> u64
    ensures { result ≡ min (rate direction * span lasting) (2 ^ 64 - 1) }
{
    if lasting.0 != 0 {
        return u64::MAX;
    }
    rate(direction).saturating_mul(lasting.1)
}

// A cell's charge moved by an amount; `latched` is the cell's latched bit. From which charge on a cell gets full depends on the amount
// alone, so that a loop over cells works it out once.
#[tactic(auto, unfolding(cell::specs::Cell::moved))]
fn moved(direction: Direction, latched: u8, amount: u64, q: u64) -> u64
    ensures { result ≡ moved direction latched amount q }
{
    match direction {
        Direction::Program => {
            if latched != 0 {
                return q;
            }
            if FULL <= amount {
                return FULL;
            }
            if FULL - amount <= q {
                return FULL;
            }
            q + amount
        }
        Direction::Erase => q.saturating_sub(amount),
    }
}

// A cell's charge after an exposure.
pub fn expose(direction: Direction, latched: u8, lasting: Duration, q: u64) -> u64
    ensures { result ≡ exposed direction latched (span lasting) q }
{
    moved(direction, latched, amount(direction, lasting), q)
}

// Bit k of a byte.
pub fn bit(b: u8, k: usize) -> u8
    requires { k < 8 }
    ensures { result ≡ bit b k }
{
    (b >> k) % 2
}

// The bit of the cell j of a page, from a byte for every eight cells.
pub fn page_bit(bytes: &[u8; PAGE], j: usize) -> u8
    requires { j < page_cells }
    ensures { result ≡ page_bit bytes.now j }
{
    bit(bytes[j / 8], j % 8)
}

// The charge of a cell that no pulse has reached yet, from its stored bit.
pub fn first_charge(stored: u8) -> u64
    ensures { result ≡ first_charge stored }
{
    if stored == 1 { 0 } else { FULL }
}

// A page's first charges, from its stored bytes: each is read once for its eight cells. Here and below a loop over cells, each by its bit
// of the page, takes up to half as long again.
fn open(cells: &mut [u64; PAGE_CELLS], bytes: &[u8; PAGE])
    ensures { cells.new ≡ opened_page bytes.now cells.old }
{
    for (i, stored) in bytes.iter().enumerate() {
        for k in 0..8 {
            cells[8 * i + k] = first_charge(bit(*stored, k));
        }
    }
}

// A page's charges after an exposure. Each byte of the latch is read once for its eight cells.
fn charge(
    cells: &mut [u64; PAGE_CELLS],
    latch: &[u8; PAGE],
    direction: Direction,
    lasting: Duration,
)
    ensures { cells.new ≡ charged_page direction latch.now (span lasting) cells.old }
{
    let by = amount(direction, lasting);
    for (i, latched) in latch.iter().enumerate() {
        for k in 0..8 {
            let j = 8 * i + k;
            cells[j] = moved(direction, bit(*latched, k), by, cells[j]);
        }
    }
}

// A page takes a slot of the charge store. Here and below the store is split and no range of it taken: what is written to the first chunk
// of a range would not be known.
pub fn open_slot(charges: &mut [u64], slot: usize, bytes: &[u8; PAGE])
    requires { (length charges.old ≡ array_cells) × (slot < pages) }
    ensures { charges.new ≡ opened_slot slot bytes.now charges.old }
{
    let (_, rest) = charges.split_at_mut(slot * PAGE_CELLS);
    open(rest.first_chunk_mut().unwrap(), bytes);
}

// The page in a slot of the charge store is exposed.
pub fn charge_slot(
    charges: &mut [u64],
    slot: usize,
    latch: &[u8; PAGE],
    direction: Direction,
    lasting: Duration,
)
    requires { (length charges.old ≡ array_cells) × (slot < pages) }
    ensures { charges.new ≡ charged_slot slot direction latch.now (span lasting) charges.old }
{
    let (_, cells) = charges.split_at_mut(slot * PAGE_CELLS);
    charge(cells.first_chunk_mut().unwrap(), latch, direction, lasting);
}
