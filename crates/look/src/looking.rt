// Looking at a time: what a settle then would leave, worked out for what is asked, and nothing kept. Here the view of a look, and
// charges.
ghost use Rattle.std.specs.Prelude.{◌≡◌, true, false, ◌<◌, Some, IfSome, IfNone};
ghost use Rattle.time.specs.Raw.{span};
ghost use Rattle.cell.specs.Cell.{array_cells};
ghost use Rattle.settle.specs.Pages.{cell_at};
ghost use Rattle.settle.specs.Settling.{charged, covers};
ghost use Rattle.flash.specs.Chip.{settled_at};
ghost use Rattle.flash.specs.Looking.{charge_at};
ghost use Rattle.flash.specs.Views.{chip_of};
ghost use Rattle.look.specs.Views.{cells_after};

use cell::PAGE_CELLS;
use charging::{expose, page_bit};
use flash::held::Held;
use settle::cells::CellsRef;
use settle::exposure::Exposure;
use time::Time;

// What a look at a time sees: the cells, and what a settle then would expose of them.
#[derive(Clone, Copy)]
pub struct View<'a> {
    pub cells: CellsRef<'a>,
    pub exposure: Option<Exposure<'a>>,
}

impl View<'_> {
    // The view of a look at a time.
    pub fn at<'a>(held: &'a Held<'_>, time: Time) -> View<'a>
        ensures { cells_after result ≡ settled_at time (chip_of held.now) }
    {
        let registers = &held.flash.registers;
        View {
            cells: held.cells(),
            exposure: Exposure::at(
                registers.pulse(),
                &registers.latch,
                held.flash.pulse_since,
                time,
            ),
        }
    }

    // The exposure where it covers a page, and none where the page stays.
    pub fn covering(&self, page: usize) -> Option<&Exposure<'_>>
        ensures some { IfSome result (λ found. (self.now.exposure ≡ Some found.now) × (covers found.now.pulse page ≡ true)) }
        ensures none { IfNone result (IfSome self.now.exposure (λ other. covers other.pulse page ≡ false)) }
    {
        self.exposure
            .as_ref()
            .filter(|exposure| exposure.covers(page))
    }

    // The charge of the cell i.
    pub fn charge(&self, i: usize) -> u64
        requires { i < array_cells }
        ensures { result ≡ cell_at (cells_after self.now) i }
    {
        let charge = self.cells.charge(i);
        match self.covering(i / PAGE_CELLS) {
            None => charge,
            Some(exposure) => charged(exposure, i, charge),
        }
    }
}

// The charge of the cell i of the exposed pages, which had a charge.
pub fn charged(exposure: &Exposure, i: usize, charge: u64) -> u64
    ensures { result ≡ charged exposure.now.pulse exposure.now.latch.now (span exposure.now.length) i charge }
{
    let bit = page_bit(exposure.latch, i % PAGE_CELLS);
    expose(exposure.pulse.direction, bit, exposure.length, charge)
}

// The charge of the cell i at a time.
#[tactic(auto, unfolding(flash::specs::Looking::charge_at))]
pub fn cell_charge(held: &Held, i: usize, time: Time) -> u64
    requires { i < array_cells }
    ensures { result ≡ charge_at time (chip_of held.now) i }
{
    View::at(held, time).charge(i)
}
