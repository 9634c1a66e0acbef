// The map: a mark for each page, by its state and what charge is left in it.
ghost use Rattle.std.specs.Prelude.{◌≡◌, ◌<◌, ◌*◌};
ghost use Rattle.cell.specs.Cell.{page_cells, pages};
ghost use Rattle.settle.specs.Pages.{cell_at};
ghost use Rattle.flash.specs.Views.{chip_of};
ghost use Rattle.look.specs.Views.{cells_after};
ghost use Rattle.picture.specs.Marks.{holds_charge, charged_at, mark_of, marks_of};

use crate::cells::holds_charge;
use cell::PAGES;
use flash::PageState;
use flash::held::Held;
use look::looking::View;
use time::Time;

// The mark of a page in a state, in a view.
fn mark(state: PageState, view: &View, page: usize) -> u8
    requires { page < pages }
    ensures { result ≡ mark_of state (holds_charge (cell_at (cells_after view.now)) page_cells (page * page_cells)) }
{
    match state {
        PageState::Legible => b'#',
        PageState::Blank if holds_charge(view, page) => b'+',
        PageState::Blank => b'.',
    }
}

// The marks of all pages at a time, by their states.
pub fn marks(held: &Held, time: Time, states: &[PageState; PAGES]) -> [u8; PAGES]
    ensures { result ≡ marks_of states.now (charged_at time (chip_of held.now)) }
{
    let view = View::at(held, time);
    let mut marks = [0u8; PAGES];
    for page in 0..PAGES {
        marks[page] = mark(states[page], &view, page);
    }
    marks
}
