// The functions that a host program in Rust or C links against, exported by the crate `host_c`. None asks for anything: each tells its
// whole outcome for every input, refusals included.
#![tactic(auto)]

pub mod calls;
pub mod looks;
pub mod snapshots;
