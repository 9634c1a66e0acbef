// What the program says and which files it reads and writes besides the history: each sentence is put together by the
// crates below and written here.
#![tactic(auto)]

pub mod beginning;
pub mod files;
pub mod reading;
pub mod saying;
pub mod troubles;

// Where a run reads files, prints and writes, and the writer that is lent for its complaints.
#[derive_where(Clone, Copy)]
pub struct Outlets<'a, R, S> {
    pub rt: &'a R,
    pub says: &'a S,
}

// Why a run can't go on was said.
#[derive(Clone, Copy, Debug, PartialEq, Eq)]
pub struct Told;
