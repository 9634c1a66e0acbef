// Settling: pages and their slots in the charge store. What an exposure does and which event words it gives is in the definitions; the
// settle over lent memory is the crate `settling`.
#![tactic(auto)]

pub mod cells;
pub mod event_words;
pub mod exposure;
pub mod pages;
pub mod tally;
