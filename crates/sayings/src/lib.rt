// Times and events in words. What does not fit is cut off.
#![tactic(auto)]

pub mod events;
pub mod times;
