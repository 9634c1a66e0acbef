// The pages of each block, and the address of each legible page.
ghost use Rattle.std.specs.Prelude.{◌<◌};
ghost use Rattle.text.specs.Says.{Says};
ghost use Rattle.cell.specs.Cell.{pages as Cell·pages};
ghost use Rattle.control.specs.Blocks.{blocks};
ghost use Rattle.summary.specs.Summary.{lines, pages_in, state_line, page_told, pages_text};

use crate::series::put_lines;
use answers::report::{legible_page, pages};
use cell::{PAGE, PAGES};
use control::blocks::{BLOCKS, block_range};
use flash::PageState;
use text::Text;
use verdict::states::count_in_block;

// The pages of a block.
#[tactic(auto, using(control::proofs::Places::block_inside), unfolding(crate::specs::Summary::pages_in))]
fn put_pages_in(text: &mut Text, states: &[PageState; PAGES], block: usize)
    requires { block < blocks }
    ensures { Says (pages_in states.now block) text.old text.new }
{
    let range = block_range(block);
    let first = usize::from(range.first);
    let all = usize::from(range.pages);
    let blank = count_in_block(states, block, PageState::Blank);
    let legible = count_in_block(states, block, PageState::Legible);
    pages(
        text,
        block as u64,
        (first * PAGE) as u64,
        ((first + all) * PAGE - 1) as u64,
        blank as u64,
        legible as u64,
    );
}

fn put_blocks(text: &mut Text, states: &[PageState; PAGES])
    ensures { Says (lines (pages_in states.now) 0 blocks) text.old text.new }
{
    put_lines(text, BLOCKS, |text, block| {
        put_pages_in(text, states, block)
    });
}

// A line for a page, if its state has one.
fn put_state(text: &mut Text, state: PageState, page: usize)
    requires { page < Cell·pages }
    ensures { Says (state_line state page) text.old text.new }
{
    match state {
        PageState::Blank => {}
        PageState::Legible => legible_page(text, (page * PAGE) as u64),
    }
}

fn put_states(text: &mut Text, states: &[PageState; PAGES])
    ensures { Says (lines (page_told states.now) 0 Cell·pages) text.old text.new }
{
    put_lines(text, PAGES, |text, page| {
        put_state(text, states[page], page)
    });
}

pub fn put_pages(text: &mut Text, states: &[PageState; PAGES])
    ensures { Says (pages_text states.now) text.old text.new }
{
    put_blocks(text, states);
    put_states(text, states);
}
