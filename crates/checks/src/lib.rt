// Which records are refused by 3.
#![tactic(auto)]

pub mod slots;

ghost use Rattle.std.specs.Prelude.{◌≡◌, ◌≤◌, leb};
ghost use Rattle.std.specs.List.{list_all, zip};
ghost use Rattle.layout.specs.Layout.{head_known, nothing_clear, placed, legible, in_range, accepted, rows_in};

use crate::slots::slots_sound;
use cell::{ARRAY_BYTES, PAGE_BYTES};
use control::supplies::{LAST_MODE, LAST_SUPPLY};
use layout::{ADDRESS_COUNT, ADDRESSES, HEAD_COUNT, INDICES, PENDING_INSTANT, RECORD_LEN};
use rows::numbers::Number;
use rows::row_at;
use time::Time;

// The most that each single byte of a state can be: those of flags, of the supply, of the mode and of the option are few, the others may be
// any.
pub const LIMITS: [u8; HEAD_COUNT] = [255, 1, 255, 1, 1, LAST_SUPPLY, 1, LAST_MODE, 1, 1];

// Whether each byte is at most its limit.
fn within(bytes: &[u8], limits: &[u8]) -> bool
    ensures { result ≡ list_all (λ e. leb e.0 e.1) (zip bytes.now limits.now) }
{
    bytes.iter().zip(limits).all(|(byte, most)| byte <= most)
}

// Each flag, supply, mode and option byte is one.
fn head_known(head: &[u8; HEAD_COUNT]) -> bool
    ensures { result ≡ head_known head.now }
{
    within(head, &LIMITS)
}

// With nothing pending, address and instant are 0.
fn nothing_clear(option: u8, address: u16, instant: Time) -> bool
    ensures { result ≡ nothing_clear option address instant }
{
    (option == 1) | ((address == 0) & (instant == Time(0, 0)))
}

// An address is aligned to a step, and not past the end.
pub fn placed(address: u16, step: u16) -> bool
    requires { 1 ≤ step }
    ensures { result ≡ placed address step }
{
    (address % step == 0) & (address < ARRAY_BYTES)
}

// What `validate` does not test itself.
pub fn legible(record: &[u8; RECORD_LEN]) -> bool
    ensures { result ≡ legible (rows_in «record».now) }
{
    let head: [u8; HEAD_COUNT] = row_at(record, 0);
    let addresses: [u16; ADDRESS_COUNT] = row_at(record, ADDRESSES);
    let instant: [u64; 2] = row_at(record, PENDING_INSTANT);
    let indices = row_at(record, INDICES);
    head_known(&head) & nothing_clear(head[9], addresses[1], instant.into()) & slots_sound(&indices)
}

// What it does: control, page and pending address.
pub fn in_range(record: &[u8; RECORD_LEN]) -> bool
    ensures { result ≡ in_range (rows_in «record».now) }
{
    let page = u16::get(record, ADDRESSES);
    let address = u16::get(record, ADDRESSES + u16::WIDTH);
    (record[0] < 128) & placed(page, PAGE_BYTES) & placed(address, 4)
}

// Whether a record is one that a state is written as, and that is allowed: if not, it is refused by 3.
#[tactic(auto, unfolding(layout::specs::Layout::accepted))]
pub fn accepts(record: &[u8; RECORD_LEN]) -> bool
    ensures { result ≡ accepted «record».now }
{
    legible(record) & in_range(record)
}
