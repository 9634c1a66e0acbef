// A snapshot whose fields are all good.
ghost use Rattle.std.specs.Prelude.{◌≡◌, ◌≤◌};
ghost use Rattle.cell.specs.Cell.{pages};
ghost use Rattle.flash.specs.Chip.{no_pages};
ghost use Rattle.snapshot.specs.Places.{pages_place, count_in, pages_index, scan_number, state_place};

use crate::count_in;
use crate::state::StateAt;
use cell::PAGES;
use snapshot::page_at;

// It was scanned, and the index has its charge pages.
#[derive(Clone, Copy)]
pub struct Scanned<'a> {
    pub bytes: &'a [u8],
    pub indices: [u16; PAGES],
    pub ghost good: { scan_number bytes.now ≡ 0 },
    pub ghost indexed: { indices ≡ pages_index (count_in bytes.now) 0 (no_pages pages) bytes.now pages_place },
}

impl Scanned<'_> {
    // The count of its charge pages.
    pub fn count(&self) -> usize
        ensures count { result ≡ count_in self.now.bytes.now }
        ensures few { result ≤ pages }
    {
        count_in(self.bytes)
    }

    // Its state.
    pub fn state(&self) -> StateAt<'_>
        ensures same { result.bytes.now ≡ self.now.bytes.now }
        ensures place { result.at ≡ state_place self.now.bytes.now }
    {
        StateAt {
            bytes: self.bytes,
            at: page_at(self.count()),
        }
    }
}
