// Looking at a time: the bytes of the image, one, a page's and all.
ghost use Rattle.std.specs.Prelude.{◌≡◌, true, ◌<◌, ◌≤◌, ◌+◌, ◌-◌, ◌*◌, ◌/◌, length, take, drop, Some};
ghost use Rattle.std.proofs.lemmas.List.Edits.{sets};
ghost use Rattle.cell.specs.declared.Sense.TheVariants.{Normal};
ghost use Rattle.lists.specs.Lists.{at};
ghost use Rattle.cell.specs.Cell.{array_bytes, page_bytes, pages};
ghost use Rattle.settle.specs.Settling.{covers};
ghost use Rattle.settle.specs.Views.{cells_in, after_exposure};
ghost use Rattle.flash.specs.Looking.{all_blank, peek_at, blank_at, image_at};
ghost use Rattle.flash.specs.Views.{chip_of};
ghost use Rattle.look.specs.Views.{cells_after};

use crate::looking::{View, charged};
use cell::{FLASH_SIZE, PAGE, PAGES, Sense};
use flash::held::Held;
use sensing::limits::Ceilings;
use settle::cells::CellsRef;
use settle::exposure::Exposure;
use std::array::from_fn;
use time::Time;

// The byte at an address of the exposed pages: its eight cells are charged and sensed. Here and below an exposure that covers the page is
// given itself, beside the cells: a view would have each of them ask again whether there is one.
fn sensed_after(cells: &CellsRef, exposure: &Exposure, ceilings: &Ceilings, address: usize) -> u8
    requires { (ceilings.now.sense ≡ Normal) × (address < array_bytes) × (covers exposure.now.pulse (address / page_bytes) ≡ true) }
    ensures { result ≡ at (after_exposure (Some exposure.now) (cells_in cells.now)).array address }
{
    let charges = from_fn(|k| {
        let i = 8 * address + k;
        charged(exposure, i, cells.charge(i))
    });
    ceilings.sense_byte(address, &charges)
}

// Whether the 128 stored bytes from `start` on all read FF.
fn stored_blank(array: &[u8], start: usize) -> bool
    requires { start + page_bytes ≤ length array.now }
    ensures { result ≡ all_blank page_bytes start array.now }
{
    array[start..start + PAGE].iter().all(|b| *b == 0xFF)
}

// Whether a page that an exposure covers is blank after it.
fn sensed_blank(cells: &CellsRef, exposure: &Exposure, page: usize) -> bool
    requires { (page < pages) × (covers exposure.now.pulse page ≡ true) }
    ensures { result ≡ all_blank page_bytes (page * page_bytes) (after_exposure (Some exposure.now) (cells_in cells.now)).array }
{
    let ceilings = Ceilings::of(Sense::Normal);
    let start = page * PAGE;
    (start..start + PAGE).all(|address| sensed_after(cells, exposure, &ceilings, address) == 0xFF)
}

// The stored bytes from `start` to `end`, into `out`. Here and below what is written to may be longer, as a host may lend it: so it is a
// slice with room, and no array. In a loop, as `copy_from_slice` would have a C host's archive need `memmove` beside `memcpy`.
fn write_stored(array: &[u8], start: usize, end: usize, out: &mut [u8])
    requires { (start ≤ end) × (end ≤ length array.now) × (end ≤ length out.old) }
    ensures { out.new ≡ sets out.old start (take (end - start) (drop start array.now)) }
{
    for address in start..end {
        out[address] = array[address];
    }
}

// The bytes of a page that an exposure covers, into `out`.
fn write_sensed(
    cells: &CellsRef,
    exposure: &Exposure,
    ceilings: &Ceilings,
    page: usize,
    out: &mut [u8],
)
    requires { (ceilings.now.sense ≡ Normal) × (page < pages) × (covers exposure.now.pulse page ≡ true) × (array_bytes ≤ length out.old) }
    ensures { out.new ≡ sets out.old (page * page_bytes) (take page_bytes (drop (page * page_bytes) (after_exposure (Some exposure.now) (cells_in cells.now)).array)) }
{
    let start = page * PAGE;
    for address in start..start + PAGE {
        out[address] = sensed_after(cells, exposure, ceilings, address);
    }
}

// The bytes after an exposure, into `out`: a page that it does not cover is copied.
fn write_pages(cells: &CellsRef, exposure: &Exposure, out: &mut [u8])
    requires { array_bytes ≤ length out.old }
    ensures { out.new ≡ sets out.old 0 (after_exposure (Some exposure.now) (cells_in cells.now)).array }
{
    let ceilings = Ceilings::of(Sense::Normal);
    for page in 0..PAGES {
        let start = page * PAGE;
        if exposure.covers(page) {
            write_sensed(cells, exposure, &ceilings, page, out);
        } else {
            write_stored(cells.array, start, start + PAGE, out);
        }
    }
}

impl View<'_> {
    // The byte at an address: sensed where an exposure covers the page, else the stored one.
    fn byte(&self, address: usize) -> u8
        requires { address < array_bytes }
        ensures { result ≡ at (cells_after self.now).array address }
    {
        match self.covering(address / PAGE) {
            None => self.cells.array[address],
            Some(exposure) => {
                sensed_after(&self.cells, exposure, &Ceilings::of(Sense::Normal), address)
            }
        }
    }

    // Whether a page is blank. Ceilings are made where the page is sensed: made once for a map, they add a third to one in which nothing is
    // sensed.
    pub fn blank(&self, page: usize) -> bool
        requires { page < pages }
        ensures { result ≡ all_blank page_bytes (page * page_bytes) (cells_after self.now).array }
    {
        match self.covering(page) {
            None => stored_blank(self.cells.array, page * PAGE),
            Some(exposure) => sensed_blank(&self.cells, exposure, page),
        }
    }

    // The image, into `out`.
    fn write(&self, out: &mut [u8])
        requires { array_bytes ≤ length out.old }
        ensures { out.new ≡ sets out.old 0 (cells_after self.now).array }
    {
        let Some(exposure) = &self.exposure else {
            write_stored(self.cells.array, 0, FLASH_SIZE, out);
            return;
        };
        write_pages(&self.cells, exposure, out);
    }
}

// The byte at an address at a time.
#[tactic(auto, unfolding(flash::specs::Looking::peek_at, flash::specs::Looking::image_at))]
pub fn peek(held: &Held, address: usize, time: Time) -> u8
    requires { address < array_bytes }
    ensures { result ≡ peek_at time (chip_of held.now) address }
{
    View::at(held, time).byte(address)
}

// Whether the page of an address is blank at a time.
#[tactic(auto, unfolding(flash::specs::Looking::blank_at, flash::specs::Looking::image_at))]
pub fn blank_page(held: &Held, address: usize, time: Time) -> bool
    requires { address < array_bytes }
    ensures { result ≡ blank_at time (chip_of held.now) address }
{
    View::at(held, time).blank(address / PAGE)
}

// The image at a time, into `out`, whose bytes past it stay.
#[tactic(auto, unfolding(flash::specs::Looking::image_at))]
pub fn image(held: &Held, time: Time, out: &mut [u8])
    requires { array_bytes ≤ length out.old }
    ensures { out.new ≡ sets out.old 0 (image_at time (chip_of held.now)) }
{
    View::at(held, time).write(out);
}
