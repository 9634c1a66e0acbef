// The cells of a page in a view: what a look adds is worked out once and not for each cell.
ghost use Rattle.std.specs.Prelude.{◌≡◌, ◌*◌, ◌<◌};
ghost use Rattle.cell.specs.Cell.{page_cells, pages};
ghost use Rattle.settle.specs.Pages.{cell_at};
ghost use Rattle.look.specs.Views.{cells_after};
ghost use Rattle.picture.specs.Marks.{holds_charge};

use cell::PAGE_CELLS;
use look::looking::View;

// Whether a cell of a page holds a charge.
pub fn holds_charge(view: &View, page: usize) -> bool
    requires { page < pages }
    ensures { result ≡ holds_charge (cell_at (cells_after view.now)) page_cells (page * page_cells) }
{
    // The references are copied and the places counted from 0: a map takes up to three times as long over those from `start` on, and up to
    // five times without the copy too.
    let view = *view;
    let start = page * PAGE_CELLS;
    (0..PAGE_CELLS).any(|i| 0 < view.charge(start + i))
}
