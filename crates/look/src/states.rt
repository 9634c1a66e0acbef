// Looking at a time: the states of the pages, which all that counts blank or legible pages goes by.
ghost use Rattle.std.specs.Prelude.{◌≡◌, ◌<◌, Bool, cond};
ghost use Rattle.time.specs.declared.Time.{Time};
ghost use Rattle.cell.specs.Cell.{pages};
ghost use Rattle.flash.specs.Chip.{Chip, settled_at};
ghost use Rattle.flash.specs.Looking.{page_state, page_states};
ghost use Rattle.flash.specs.Views.{chip_of};
ghost use Rattle.look.specs.Views.{cells_after};

use crate::looking::View;
use cell::PAGES;
use flash::PageState;
use flash::held::Held;
use time::Time;

impl View<'_> {
    // The state of a page, at each time whose settle would leave these cells.
    fn state(&self, page: usize) -> PageState
        requires { page < pages }
        ensures { (t : Time) (k : Chip) → settled_at t k ≡ cells_after self.now → result ≡ page_state t k page }
    {
        if self.blank(page) {
            PageState::Blank
        } else {
            PageState::Legible
        }
    }
}

// The state of a page at a time.
pub fn page_state(held: &Held, page: usize, time: Time) -> PageState
    requires { page < pages }
    ensures { result ≡ page_state time (chip_of held.now) page }
{
    View::at(held, time).state(page)
}

// The states of all pages at a time.
pub fn page_states(held: &Held, time: Time) -> [PageState; PAGES]
    ensures { result ≡ page_states time (chip_of held.now) }
{
    let view = View::at(held, time);
    let mut states = [PageState::Blank; PAGES];
    for page in 0..PAGES {
        states[page] = view.state(page);
    }
    states
}
