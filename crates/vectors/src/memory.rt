// The memory that the calls are lent, as a host would lend it.
use crate::sum::Table;
use cell::{CELLS, FLASH_SIZE};
use layout::{EVENT_WORDS, RECORD_LEN};
use snapshot::LONGEST;

// Record, array, charge store, event words, image, and the buffer of snapshots; and the table of sums.
#[derive(Drop)]
pub struct Memory {
    pub record: [u8; RECORD_LEN],
    pub array: [u8; FLASH_SIZE],
    pub charges: [u64; CELLS],
    pub events: [u64; EVENT_WORDS],
    pub image: [u8; FLASH_SIZE],
    pub buffer: [u8; LONGEST],
    pub table: Table,
}

// A constant, since the arrays of a literal are first made beside the struct, and both have no room on a stack of 8 MB.
pub const EMPTY: Memory = Memory {
    record: [0; RECORD_LEN],
    array: [0; FLASH_SIZE],
    charges: [0; CELLS],
    events: [0; EVENT_WORDS],
    image: [0; FLASH_SIZE],
    buffer: [0; LONGEST],
    table: [0; 256],
};
