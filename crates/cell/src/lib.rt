// The cells of the array: their classes. What they sense and what a pulse does to their charges is in the definitions; the functions are
// the crates `sensing` and `charging`.
#![tactic(auto)]

pub mod classes;

// The charge of a programmed cell.
pub const FULL: u64 = 12912720851596686100;

// Bytes of a page, of the array; cells of a page, of the array; pages of the array.
pub const PAGE: usize = 128;

pub const FLASH_SIZE: usize = 49152;

pub const PAGE_CELLS: usize = 1024;

pub const CELLS: usize = 393216;

pub const PAGES: usize = 384;

// Bytes of a page, and of the array, as an address has them.
pub const PAGE_BYTES: u16 = PAGE as u16;

pub const ARRAY_BYTES: u16 = FLASH_SIZE as u16;

// By which limit a cell is sensed.
#[derive(Clone, Copy, Debug, PartialEq, Eq)]
pub enum Sense {
    Normal,
    ProgramVerify,
    EraseVerify,
}

// Which way a pulse moves charges.
#[derive(Clone, Copy, Debug, PartialEq, Eq)]
pub enum Direction {
    Program,
    Erase,
}
