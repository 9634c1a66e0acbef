// The blocks that the erase register selects, as ranges of pages, the block of a page, and the pages of a stretch of addresses.
ghost use Rattle.std.specs.Prelude.{◌≡◌, ◌<◌, ◌≤◌};
ghost use Rattle.control.specs.Blocks.{erase_range, blocks, block_range, block_of, pages_touched};

use crate::Range;
use cell::PAGE_BYTES;

pub const BLOCKS: usize = 6;

// The range that the erase register selects.
#[tactic(auto, unfolding(crate::specs::Blocks::erase_range))]
pub fn erase_range(erase: u8) -> Range
    ensures { result ≡ erase_range erase }
{
    match erase {
        1 => Range { first: 0, pages: 8 },
        2 => Range { first: 8, pages: 8 },
        4 => Range {
            first: 16,
            pages: 8,
        },
        8 => Range {
            first: 24,
            pages: 8,
        },
        16 => Range {
            first: 32,
            pages: 224,
        },
        32 => Range {
            first: 256,
            pages: 128,
        },
        _ => Range { first: 0, pages: 0 },
    }
}

// The pages of a block, which its bit of the erase register selects.
pub fn block_range(block: usize) -> Range
    requires { block < blocks }
    ensures { result ≡ block_range block }
{
    erase_range(1 << block)
}

// The block that a page lies in, none for a page past the array.
pub fn block_of(page: usize) -> Option<usize>
    ensures { result ≡ block_of page }
{
    (0..BLOCKS).find(|block| block_range(*block).covers(page))
}

// The pages in which the addresses from one to another lie, both included.
#[tactic(auto, unfolding(crate::specs::Blocks::pages_touched))]
pub fn pages_touched(from: u16, to: u16) -> Range
    requires { from ≤ to }
    ensures { result ≡ pages_touched from to }
{
    let first = from / PAGE_BYTES;
    Range {
        first,
        pages: to / PAGE_BYTES + 1 - first,
    }
}
