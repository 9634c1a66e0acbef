// Settling over lent memory: an exposure opens and charges the range's pages, then its bytes are sensed anew; a changed byte gives an
// event word.
#![tactic(auto)]

pub mod tallies;

ghost use Rattle.std.specs.Prelude.{◌≡◌, ◌<◌, ◌≤◌, ◌+◌, ◌*◌, ◌-◌, IfSome, length};
ghost use Rattle.std.proofs.lemmas.List.Edits.{sets};
ghost use Rattle.lists.specs.Lists.{at};
ghost use Rattle.cell.specs.Cell.{array_bytes, page_bytes, page_cells, pages, sensed_byte};
ghost use Rattle.registers.specs.Calls.{ending_number};
ghost use Rattle.settle.specs.Settling.{settled_by, spanned, changes, byte_kind, word, range_bytes, range_end};
ghost use Rattle.settle.specs.Views.{after_exposure, cells_at, SameCells, LeavesCells};
ghost use Rattle.settling.specs.Kinds.{kind_number, KindWithNumber};

use cell::{PAGE, PAGE_CELLS, Sense};
use registers::{Ending, Pulse};
use sensing::limits::Ceilings;
use settle::cells::CellsMut;
use settle::event_words::{ADDRESS, KIND};
use settle::exposure::Exposure;
use settle::pages::{charge_page, opened};
use time::Time;

// What an event word tells: a byte that changed, or how a pulse ended.
#[derive(Clone, Copy, Debug, PartialEq, Eq)]
pub enum EventKind {
    Byte = 1,
    Completed = 2,
    Interrupted = 3,
}

impl From<EventKind> for u64 {
    ghost from_gives = { λ kind n. n ≡ kind_number kind };

    fn from(kind: EventKind) -> u64 {
        kind as u64
    }
}

impl From<Ending> for EventKind {
    ghost from_gives = { λ ending kind. kind_number kind ≡ ending_number ending };

    fn from(ending: Ending) -> EventKind {
        match ending {
            Ending::Completed => EventKind::Completed,
            Ending::Interrupted => EventKind::Interrupted,
        }
    }
}

// A number that no kind of event word has.
#[derive(Clone, Copy, Debug, PartialEq, Eq)]
pub struct UnknownKind(pub u64);

impl TryFrom<u64> for EventKind {
    type Error = UnknownKind;

    ghost try_from_gives = { KindWithNumber };

    fn try_from(number: u64) -> Result<EventKind, UnknownKind> {
        match number {
            1 => Ok(EventKind::Byte),
            2 => Ok(EventKind::Completed),
            3 => Ok(EventKind::Interrupted),
            _ => Err(UnknownKind(number)),
        }
    }
}

// An event word.
#[tactic(auto, unfolding(settle::specs::Settling::word))]
pub fn word(kind: u64, address: u64, value: u64) -> u64
    requires { (kind < 4) × (address < 65536) × (value < 65536) }
    ensures { result ≡ word kind address value }
{
    kind * KIND + address * ADDRESS + value
}

impl EventKind {
    // The event word of this kind.
    pub fn word(self, address: u16, value: u16) -> u64
        ensures { result ≡ word (kind_number self) address value }
    {
        word(u64::from(self), u64::from(address), u64::from(value))
    }
}

// The event word of a byte.
fn byte_word(address: usize, value: u8) -> u64
    requires { address < array_bytes }
    ensures { result ≡ word byte_kind address value }
{
    EventKind::Byte.word(address as u16, u16::from(value))
}

// A page takes its bytes; each change is an event. The answer is the count after. Here and below each function asks for room for the words
// that it may give, and no two for as many.
fn store_page(
    array: &mut [u8],
    events: &mut [u64],
    address: usize,
    bytes: &[u8; PAGE],
    count: usize,
) -> usize
    requires { (length array.old ≡ array_bytes) × (address + page_bytes ≤ array_bytes) × (count + page_bytes ≤ length events.old) }
    ensures array { array.new ≡ spanned address (address + page_bytes) (λ a. at bytes.now (a - address)) array.old }
    ensures events { events.new ≡ sets events.old count (changes 0 array.old array.new) }
    ensures count { result ≡ count + length (changes 0 array.old array.new) }
{
    let mut n = count;
    for (i, value) in bytes.iter().enumerate() {
        let old = array[address + i];
        if old != *value {
            array[address + i] = *value;
            events[n] = byte_word(address + i, *value);
            n += 1;
        }
    }
    n
}

// A page's bytes become what the cells in its slot sense by the ceilings.
fn resense_page(
    cells: &mut CellsMut,
    events: &mut [u64],
    ceilings: &Ceilings,
    slot: usize,
    page: usize,
    count: usize,
) -> usize
    requires { (slot < pages) × (page < pages) × (count + page_bytes ≤ length events.old) }
    ensures same { SameCells cells.old cells.new }
    ensures index { cells.new.index.now ≡ cells.old.index.now }
    ensures charges { cells.new.charges.now ≡ cells.old.charges.now }
    ensures array { cells.new.array.now ≡ spanned (page * page_bytes) (page * page_bytes + page_bytes) (λ a. sensed_byte ceilings.now.sense a (λ k. at cells.old.charges.now (slot * page_cells + (8 * (a - page * page_bytes) + k)))) cells.old.array.now }
    ensures events { events.new ≡ sets events.old count (changes 0 cells.old.array.now cells.new.array.now) }
    ensures count { result ≡ count + length (changes 0 cells.old.array.now cells.new.array.now) }
{
    let mut bytes = [0u8; PAGE];
    let seen = cells.seen();
    let (stored, _) = seen.charges.as_chunks::<PAGE_CELLS>();
    ceilings.sense_page(page * PAGE, &stored[slot], &mut bytes);
    store_page(cells.array, events, page * PAGE, &bytes, count)
}

// An exposure of a pulse's range; without one nothing changes. The answer is the number of event words given.
pub fn expose(cells: &mut CellsMut, events: &mut [u64], exposure: &Option<Exposure>) -> usize
    requires { IfSome exposure.now (λ e. (e.pulse.first + e.pulse.pages ≤ pages) × (e.pulse.pages * page_bytes ≤ length events.old)) }
    ensures same { SameCells cells.old cells.new }
    ensures left { LeavesCells (cells_at cells.old) (after_exposure exposure.now (cells_at cells.old)) events.old cells.new events.new result }
{
    let Some(exposure) = exposure else {
        return 0;
    };
    let ceilings = Ceilings::of(Sense::Normal);
    let pulse = exposure.pulse;
    let first = usize::from(pulse.first);
    let number = usize::from(pulse.pages);
    let mut next = opened(cells.seen().index);
    let mut count: usize = 0;
    for page in first..first + number {
        let array = &mut *cells.array;
        let slot = charge_page(
            cells.index,
            array,
            cells.charges,
            page,
            next,
            pulse,
            exposure.latch,
            exposure.length,
        );
        if slot == next {
            next += 1;
        }
        count = resense_page(cells, events, &ceilings, slot, page, count);
    }
    count
}

// A settle of index, array and charges. The answer is the number of event words given.
pub fn settle(
    cells: &mut CellsMut,
    events: &mut [u64],
    pulse: Option<Pulse>,
    latch: &[u8; PAGE],
    since: Time,
    time: Time,
) -> usize
    requires { (range_end pulse ≤ pages) × (range_bytes pulse ≤ length events.old) }
    ensures same { SameCells cells.old cells.new }
    ensures left { LeavesCells (cells_at cells.old) (settled_by pulse latch.now since time (cells_at cells.old)) events.old cells.new events.new result }
{
    expose(cells, events, &Exposure::at(pulse, latch, since, time))
}
