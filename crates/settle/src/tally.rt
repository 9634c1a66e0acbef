// Pulses by block.
use control::blocks::BLOCKS;

// How many pulses ended in each block: completed, and interrupted. A count stays at the largest number.
#[derive(Clone, Copy, Default)]
pub struct Tally {
    pub completed: [u64; BLOCKS],
    pub interrupted: [u64; BLOCKS],
}
