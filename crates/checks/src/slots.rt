// Whether used slots are one-to-one with opened pages, in one walk over the page index.
ghost use Rattle.std.specs.Prelude.{◌≡◌};
ghost use Rattle.settle.specs.Pages.{slots_sound};

use cell::PAGES;
use settle::pages::opened;

// Entries that an index can have: 0, and a slot + 1 for each page.
const ENTRIES: usize = PAGES + 1;

// From the last page down, an entry is marked if a page passed has it. Without opened pages there is nothing to mark.
pub fn slots_sound(indices: &[u16; PAGES]) -> bool
    ensures { result ≡ slots_sound indices.now }
{
    let used = opened(indices);
    if used == 0 {
        return true;
    }
    let mut marked = [false; ENTRIES];
    for entry in indices.iter().rev() {
        let entry = usize::from(*entry);
        if used < entry {
            return false;
        }
        if marked[entry] {
            return false;
        }
        marked[entry] = entry != 0;
    }
    true
}
