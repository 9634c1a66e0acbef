// The first field of a snapshot that is refused, in reading order. Nothing is kept but the page index.
// A place stays a number beside the bytes: it may be past their end, and each function asks for its own stretch.
#![tactic(auto)]

pub mod scanned;
pub mod state;

ghost use Rattle.std.specs.Prelude.{◌≡◌, ◌+◌, ◌*◌, ◌/◌, ◌^◌, ◌<◌, ◌≤◌, length, if◌then◌else◌, nat_le, nat_lt, OnOk, IfOk};
ghost use Rattle.cell.specs.Cell.{FULL, pages};
ghost use Rattle.rows.specs.Rows.{word};
ghost use Rattle.refusal.specs.declared.Refusal.TheVariants.{Field};
ghost use Rattle.refusal.specs.Refusal.{number, told};
ghost use Rattle.snapshot.specs.Places.{pages_place, count_in, cells_number, address_number, with_page, pages_number, pages_index, bytes_number, end_number, state_length, state_number, scan_number};

use crate::scanned::Scanned;
use cell::{FULL, PAGE, PAGE_BYTES, PAGE_CELLS, PAGES};
use checks::{LIMITS, placed};
use layout::{HEAD_OPTION, HEAD_SUPPLIES};
use refusal::Refusal;
use rows::numbers::Number;
use settle::pages::{entry_of, slot_in};
use snapshot::{
    CHARGE_LEN, CHARGES, COUNT, FIRST_PAGE, PENDING, SENSE_LEN, STATE_LEN, SUPPLY, page_at,
};

// The highest bit of a charge.
const TOP: u64 = 9223372036854775808;

// A page is gone over by quarters: how many there are, and the cells of one.
const QUARTERS: usize = 4;

const QUARTER: usize = PAGE_CELLS / QUARTERS;

// The highest bit tells a charge over FULL: only then both it and what FULL less it wraps to have that bit.
fn over(charge: u64) -> u64
    ensures { nat_lt result (2 ^ 63) ≡ nat_le charge FULL }
{
    charge & FULL.wrapping_sub(charge)
}

// Whether none of so many charges in a row is over FULL. Each is looked at, so that no turn of the loop asks whether to go on.
fn none_over(bytes: &[u8], at: usize, count: usize) -> bool
    requires { at + 8 * count ≤ length bytes.now }
    ensures { cells_number count bytes.now at ≡ (if result then 0 else number Field) }
{
    let (charges, _) = bytes[at..].as_chunks::<8>();
    let mut all: u64 = 0;
    for charge in &charges[..count] {
        all |= over(u64::from_le_bytes(*charge));
    }
    all < TOP
}

// So many charges in a row: if one that is there is over FULL it is refused, else if one is not there, as those that are there come first.
#[tactic(auto, using(crate::proofs::Charges::cut))]
fn check_cells(bytes: &[u8], at: usize, count: usize) -> Result<(), Refusal>
    requires { at ≤ length bytes.now }
    ensures { told result ≡ cells_number count bytes.now at }
{
    let there = (bytes.len() - at) / CHARGE_LEN;
    if !none_over(bytes, at, there.min(count)) {
        return Err(Refusal::Field);
    }
    if there < count {
        return Err(Refusal::EndsEarly);
    }
    Ok(())
}

// The bytes before a place.
fn check_end(bytes: &[u8], end: usize) -> Result<(), Refusal>
    ensures { told result ≡ end_number bytes.now end }
{
    if bytes.len() < end {
        return Err(Refusal::EndsEarly);
    }
    Ok(())
}

// The index that is filled here and below is an array beside the bytes and no value with facts: it is sound only when it is whole.
// The address of a charge page: a field that is refused if it is misaligned, past the end or in the index already.
#[tactic(auto, unfolding(snapshot::specs::Places::address_number))]
fn check_address(bytes: &[u8], at: usize, indices: &[u16; PAGES]) -> Result<(), Refusal>
    requires { at < 2 ^ 32 }
    ensures { told result ≡ address_number indices.now bytes.now at }
{
    check_end(bytes, at + CHARGES)?;
    let address = u16::get(bytes, at);
    if !placed(address, PAGE_BYTES) {
        return Err(Refusal::Field);
    }
    if slot_in(indices[usize::from(address) / PAGE]).is_some() {
        return Err(Refusal::Field);
    }
    Ok(())
}

// A page is entered in the index with its slot.
#[tactic(auto, unfolding(snapshot::specs::Places::with_page))]
fn enter_page(indices: &mut [u16; PAGES], slot: usize, bytes: &[u8], at: usize)
    requires { (slot < pages) × (at + 2 ≤ length bytes.now) × (word 2 bytes.now at / 128 < pages) }
    ensures { indices.new ≡ with_page indices.old slot bytes.now at }
{
    let page = usize::from(u16::get(bytes, at)) / PAGE;
    indices[page] = entry_of(slot);
}

// The charge pages. Reading stops at the first quarter of a page that has a bad cell.
fn check_pages(bytes: &[u8], count: usize, indices: &mut [u16; PAGES]) -> Result<(), Refusal>
    requires { count ≤ pages }
    ensures { (told result ≡ pages_number count 0 indices.old bytes.now pages_place) × OnOk result (indices.new ≡ pages_index count 0 indices.old bytes.now pages_place) }
{
    // The loops are left from inside, by the label: reading stops at the first bad cell.
    let mut outcome = Ok(());
    let mut at = FIRST_PAGE;
    'pages: for slot in 0..count {
        if let Err(refusal) = check_address(bytes, at, indices) {
            outcome = Err(refusal);
            break 'pages;
        }
        enter_page(indices, slot, bytes, at);
        at += CHARGES;
        for quarter in 0..QUARTERS {
            if let Err(refusal) = check_cells(bytes, at, QUARTER) {
                outcome = Err(refusal);
                break 'pages;
            }
            at += CHARGE_LEN * QUARTER;
        }
    }
    outcome
}

// Single bytes, each with the most that it can be.
fn check_bytes(bytes: &[u8], at: usize, limits: &[u8]) -> Result<(), Refusal>
    requires { (at < 2 ^ 32) × (length limits.now < 2 ^ 32) }
    ensures { told result ≡ bytes_number limits.now bytes.now at }
{
    for (i, most) in limits.iter().enumerate() {
        check_end(bytes, at + i + 1)?;
        if *most < bytes[at + i] {
            return Err(Refusal::Field);
        }
    }
    Ok(())
}

// The bytes of the state that stands at a place: 18 more with a pending sense.
#[tactic(auto, unfolding(snapshot::specs::Places::state_length))]
pub fn state_length(bytes: &[u8], at: usize) -> usize
    requires { at + 252 ≤ length bytes.now }
    ensures { result ≡ state_length bytes.now at }
{
    if bytes[at + PENDING] == 1 {
        STATE_LEN + SENSE_LEN
    } else {
        STATE_LEN
    }
}

// The state.
fn check_state(bytes: &[u8], at: usize) -> Result<(), Refusal>
    requires { at < 2 ^ 31 }
    ensures { told result ≡ state_number bytes.now at }
{
    check_bytes(bytes, at, &LIMITS[..HEAD_SUPPLIES])?;
    check_end(bytes, at + SUPPLY)?;
    check_bytes(bytes, at + SUPPLY, &LIMITS[HEAD_SUPPLIES..HEAD_OPTION])?;
    check_end(bytes, at + PENDING)?;
    check_bytes(bytes, at + PENDING, &LIMITS[HEAD_OPTION..])?;
    check_end(bytes, at + state_length(bytes, at))
}

// The count of charge pages.
pub fn count_in(bytes: &[u8]) -> usize
    requires { pages_place ≤ length bytes.now }
    ensures { result ≡ count_in bytes.now }
{
    u32::get(bytes, COUNT) as usize
}

// The whole of it: the snapshot with its page index, or the first field that is refused.
#[tactic(auto, using(crate::proofs::Turns::many))]
pub fn scan(bytes: &[u8]) -> Result<Scanned<'_>, Refusal>
    ensures told { told result ≡ scan_number bytes.now }
    ensures same { IfOk result (λ snapshot. snapshot.bytes.now ≡ bytes.now) }
{
    check_end(bytes, FIRST_PAGE)?;
    let count = count_in(bytes);
    if PAGES < count {
        return Err(Refusal::Field);
    }
    let mut indices = [0u16; PAGES];
    check_pages(bytes, count, &mut indices)?;
    check_state(bytes, page_at(count))?;
    Ok(Scanned { bytes, indices })
}
