// The values that stand in a snapshot, by their places.
// Lengths are asked for as clauses: each function reads its own stretch of any bytes, and no two the same one.
ghost use Rattle.std.specs.Prelude.{◌≡◌, ◌+◌, ◌≤◌, length};
ghost use Rattle.std.proofs.lemmas.List.Edits.{sets};
ghost use Rattle.cell.specs.Cell.{array_cells, pages};
ghost use Rattle.snapshot.specs.Places.{page_at, pages_place, pages_cells, time_at, pending_at, registers_at, flash_at};

use cell::{PAGE_CELLS, PAGES};
use coding::state::{mode_of, supply_of};
use control::PendingSense;
use flash::Flash;
use registers::Registers;
use rows::numbers::Number;
use rows::{get_row, row_at};
use scan::state::StateAt;
use snapshot::{
    CHARGES, ENABLED, ERASE, ERASE_READY, ERROR, LATCH, LATCH_PAGE, MODE, MODULE, OSCILLATOR,
    PENDING, PENDING_ADDRESS, PENDING_INSTANT, POWER_DOWN_DISABLED, PROGRAM_READY, PULSE_SINCE,
    READY, RECOVERY, SUPPLY, SWE_READY, VERIFY_READY, page_at,
};
use time::Time;

// The instant that stands at a place.
fn time_at(bytes: &[u8], at: usize) -> Time
    requires { at + 16 ≤ length bytes.now }
    ensures { result ≡ time_at bytes.now at }
{
    Time::get(bytes, at)
}

// The pending sense of a state; every state has 256 bytes at least.
#[tactic(auto, using(scan::proofs::States::rooms))]
fn pending_at(state: StateAt) -> Option<PendingSense>
    ensures sense { result ≡ pending_at state.entry.bytes.now state.entry.at }
    ensures room { state.entry.at + 256 ≤ length state.entry.bytes.now }
{
    let StateAt { bytes, at } = state;
    (bytes[at + PENDING] == 1).then(|| PendingSense {
        address: u16::get(bytes, at + PENDING_ADDRESS),
        at: time_at(bytes, at + PENDING_INSTANT),
    })
}

#[tactic(auto, unfolding(snapshot::specs::Places::registers_at))]
fn registers_at(state: StateAt) -> Registers
    ensures { result ≡ registers_at state.entry.bytes.now state.entry.at }
{
    let pending = pending_at(state);
    let StateAt { bytes, at } = state;
    Registers {
        control: bytes[at],
        error: bytes[at + ERROR] == 1,
        erase: bytes[at + ERASE],
        enabled: bytes[at + ENABLED] == 1,
        power_down_disabled: bytes[at + POWER_DOWN_DISABLED] == 1,
        latch: row_at(bytes, at + LATCH),
        page: u16::get(bytes, at + LATCH_PAGE),
        supply: supply_of(bytes[at + SUPPLY]),
        oscillator: bytes[at + OSCILLATOR] == 1,
        mode: mode_of(bytes[at + MODE]),
        module: bytes[at + MODULE] == 1,
        ready: time_at(bytes, at + READY),
        swe_ready: time_at(bytes, at + SWE_READY),
        program_ready: time_at(bytes, at + PROGRAM_READY),
        erase_ready: time_at(bytes, at + ERASE_READY),
        recovery: time_at(bytes, at + RECOVERY),
        verify_ready: time_at(bytes, at + VERIFY_READY),
        verify_pending: pending,
    }
}

// A state with a page index.
#[tactic(auto, using(scan::proofs::States::rooms), unfolding(snapshot::specs::Places::flash_at))]
pub fn flash_at(state: StateAt, indices: [u16; PAGES]) -> Flash
    ensures { result ≡ flash_at state.entry.bytes.now state.entry.at indices }
{
    let registers = registers_at(state);
    let since = time_at(state.bytes, state.at + PULSE_SINCE);
    let sensed = row_at(state.bytes, state.end() - 4);
    Flash {
        registers,
        pulse_since: since,
        sensed,
        indices,
    }
}

// The charges of so many pages go to their slots; the other slots keep their numbers. It promises so for any bytes in which the pages
// stand, also where other fields are refused.
pub fn load_pages(bytes: &[u8], count: usize, charges: &mut [u64])
    requires { (count ≤ pages) × (page_at count ≤ length bytes.now) × (length charges.old ≡ array_cells) }
    ensures { charges.new ≡ sets charges.old 0 (pages_cells count bytes.now pages_place) }
{
    for slot in 0..count {
        let from = slot * PAGE_CELLS;
        let to = from + PAGE_CELLS;
        get_row(bytes, page_at(slot) + CHARGES, &mut charges[from..to]);
    }
}
