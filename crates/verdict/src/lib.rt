// What the desk counts: pages by their state, and calls made and refused, lines left out and pulses by block.
#![tactic(auto)]

use settle::tally::Tally;

pub mod states;

// Calls made, calls refused, lines left out, and pulses by block.
#[derive(Clone, Copy, Default)]
pub struct Counts {
    pub made: u64,
    pub refused: u64,
    pub left_out: u64,
    pub tally: Tally,
}
