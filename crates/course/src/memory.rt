// The memory of a run. It is lent as arrays, so that loops need not keep lengths in mind.
use cell::{CELLS, FLASH_SIZE};
use layout::{EVENT_WORDS, RECORD_LEN};
use lent::memory::LentMut;
pub use listing::NUMBERS;

// So many calls may wait, each with three numbers: what, seconds, fraction.
pub const ROOM: usize = 1024;

// One byte more than the longest snapshot, so that a longer file shows.
pub const BUFFER: usize = snapshot::LONGEST + 1;

// The longest line.
pub const LONGEST: usize = 1000;

pub type Record = [u8; RECORD_LEN];

pub type Array = [u8; FLASH_SIZE];

pub type Charges = [u64; CELLS];

pub type Events = [u64; EVENT_WORDS];

// A snapshot, an image or a picture.
pub type Buffer = [u8; BUFFER];

// The calls that wait, and the numbers of their lines.
pub type Calls = [u64; NUMBERS * ROOM];

pub type Numbers = [u64; ROOM];

// The bytes of a line.
pub type Bytes = [u8; LONGEST];

// What was read and is not yet done: the calls that wait, the numbers of their lines, and the bytes of the line that is not yet read whole.
#[derive(Drop)]
pub struct Backlog {
    pub calls: Calls,
    pub numbers: Numbers,
    pub line: Bytes,
}

// What a run works on: lent memory, its event words, and room for what is said.
#[derive(Drop)]
pub struct Bench<'a> {
    pub memory: LentMut<'a>,
    pub events: &'a mut [u64],
    pub out: &'a mut [u8],
}
