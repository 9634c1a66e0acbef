// What a program in C or Rust links against: each function of `host` under its own name, which promises what that one does.
#![tactic(auto)]

pub mod calls;
pub mod looks;
pub mod snapshots;
