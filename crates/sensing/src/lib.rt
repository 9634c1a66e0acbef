// What cells sense: one cell, the eight of a byte, the 128 bytes of a page. In every mode a cell senses 1 below one number, its
// ceiling: its limit, or one more where the limit itself senses 1.
#![tactic(auto)]

pub mod limits;
