// Snapshots: the array, its charge pages and its state as one string of bytes, in the Borsh format; and whether a state is valid.
#![tactic(auto)]

ghost use Rattle.std.specs.Prelude.{◌≡◌, ◌≤◌};
ghost use Rattle.cell.specs.Cell.{pages};
ghost use Rattle.snapshot.specs.Places.{page_at};

use cell::{FLASH_SIZE, PAGE, PAGE_CELLS, PAGES};

// Where the count of charge pages stands, after the array, and where they begin.
pub const COUNT: usize = FLASH_SIZE;

pub const FIRST_PAGE: usize = COUNT + 4;

// Where the charges of a page begin, after its address; the bytes of a charge, and of a page.
pub const CHARGES: usize = 2;

pub const CHARGE_LEN: usize = 8;

pub const PAGE_LEN: usize = CHARGES + CHARGE_LEN * PAGE_CELLS;

// Where the fields of the state stand, counted from where it begins; the first is the control register.
pub const ERROR: usize = 1;

pub const ERASE: usize = 2;

pub const ENABLED: usize = 3;

pub const POWER_DOWN_DISABLED: usize = 4;

pub const LATCH: usize = 5;

pub const LATCH_PAGE: usize = LATCH + PAGE;

pub const SUPPLY: usize = 135;

pub const OSCILLATOR: usize = 136;

pub const MODE: usize = 137;

pub const MODULE: usize = 138;

pub const READY: usize = 139;

pub const SWE_READY: usize = 155;

pub const PROGRAM_READY: usize = 171;

pub const ERASE_READY: usize = 187;

pub const RECOVERY: usize = 203;

pub const PULSE_SINCE: usize = 219;

pub const VERIFY_READY: usize = 235;

pub const PENDING: usize = 251;

// Address and instant of a pending sense and the place after it, counted from the byte that tells of it.
pub const SENSE_ADDRESS: usize = 1;

pub const SENSE_INSTANT: usize = 3;

pub const SENSE_END: usize = 19;

pub const PENDING_ADDRESS: usize = PENDING + SENSE_ADDRESS;

pub const PENDING_INSTANT: usize = PENDING + SENSE_INSTANT;

// The bytes of a state with nothing pending, and those that a pending sense adds.
pub const STATE_LEN: usize = 256;

pub const SENSE_LEN: usize = SENSE_END - SENSE_ADDRESS;

// The longest snapshot: every page opened, a sense pending.
pub const LONGEST: usize = FIRST_PAGE + PAGES * PAGE_LEN + STATE_LEN + SENSE_LEN;

// Where a charge page begins; after the last one, the state.
pub fn page_at(n: usize) -> usize
    requires { n ≤ pages }
    ensures { result ≡ page_at n }
{
    FIRST_PAGE + n * PAGE_LEN
}
