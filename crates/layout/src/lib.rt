// The record: rows of numbers, one after the other. What its bytes are and which are refused is in the definitions; the functions are in
// the crates above.
#![tactic(auto)]

use cell::{PAGE, PAGES};

// Event words that a host lends at most: those of the largest range, block 4, and its end.
pub const EVENT_WORDS: usize = 0x7001;

// How many numbers a row has: single bytes, addresses, instants of two halves each, sensed bytes.
pub const HEAD_COUNT: usize = 10;

pub const ADDRESS_COUNT: usize = 2;

pub const INSTANTS: usize = 8;

pub const SENSED_COUNT: usize = 4;

// Bytes of an instant: two halves of eight.
pub const INSTANT_LEN: usize = 16;

// Where each row begins after the first, and the bytes of the record. A later row goes last.
pub const ADDRESSES: usize = HEAD_COUNT;

pub const HALVES: usize = ADDRESSES + 2 * ADDRESS_COUNT;

pub const LATCH: usize = HALVES + INSTANT_LEN * INSTANTS;

pub const SENSED: usize = LATCH + PAGE;

pub const INDICES: usize = SENSED + SENSED_COUNT;

pub const RECORD_LEN: usize = INDICES + 2 * PAGES;

// Where a pending sense's instant stands, the last of the instants.
pub const PENDING_INSTANT: usize = LATCH - INSTANT_LEN;

// Where the supplies and the option stand among the single bytes of a state, the first row.
pub const HEAD_SUPPLIES: usize = 5;

pub const HEAD_OPTION: usize = 9;
