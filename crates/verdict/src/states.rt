// Pages counted by their state.
ghost use Rattle.std.specs.Prelude.{◌≡◌, ◌+◌, ◌<◌, ◌≤◌};
ghost use Rattle.cell.specs.Cell.{pages as Cell·pages};
ghost use Rattle.control.specs.Blocks.{blocks, block_range};
ghost use Rattle.verdict.specs.States.{count_in};

use cell::PAGES;
use control::blocks::block_range;
use flash::PageState;

// How many of so many pages are in a state.
#[tactic(auto, unfolding(crate::specs::States::count_in))]
pub fn count_in(states: &[PageState; PAGES], first: usize, pages: usize, state: PageState) -> usize
    requires { first + pages ≤ Cell·pages }
    ensures { result ≡ count_in state states.now first pages }
{
    states[first..first + pages]
        .iter()
        .filter(|found| **found == state)
        .count()
}

// How many pages of a block are in a state.
#[tactic(auto, using(control::proofs::Places::block_inside))]
pub fn count_in_block(states: &[PageState; PAGES], block: usize, state: PageState) -> usize
    requires { block < blocks }
    ensures { result ≡ count_in state states.now (block_range block).first (block_range block).pages }
{
    let range = block_range(block);
    count_in(
        states,
        usize::from(range.first),
        usize::from(range.pages),
        state,
    )
}
