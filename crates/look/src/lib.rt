// Looking at a time: what a settle then would leave, worked out for what is asked.
#![tactic(auto)]

pub mod imaging;
pub mod looking;
pub mod states;
