// Control's bits and the registers' addresses, and the values that writes store.
#![tactic(auto)]

ghost use Rattle.std.specs.Prelude.{◌≡◌, ◌<◌};
ghost use Rattle.control.specs.Bits.{has, low, verifies, opened_by, falls, flag, control_value, erase_after, erase_value, setup};

use cell::Direction;

pub const FLMCR1: u16 = 0xf020;

pub const FLMCR2: u16 = 0xf021;

pub const FLPWCR: u16 = 0xf022;

pub const EBR1: u16 = 0xf023;

pub const FENR: u16 = 0xf02b;

pub const SWE: u8 = 0x40;

pub const ESU: u8 = 0x20;

pub const PSU: u8 = 0x10;

pub const EV: u8 = 8;

pub const PV: u8 = 4;

pub const E: u8 = 2;

pub const P: u8 = 1;

// Bit 7 of the flag registers.
pub const FLAG: u8 = 0x80;

// Whether the bit of value d is set in v.
pub fn has(v: u8, d: u8) -> bool
    requires { 0 < d }
    ensures { result ≡ has v d }
{
    v / d % 2 == 1
}

// P, E, PV and EV: control's low four bits.
pub fn low(v: u8) -> u8
    ensures { result ≡ low v }
{
    v % 16
}

// Whether control is set to verify: PV alone or EV alone.
pub fn verifies(v: u8) -> bool
    ensures { result ≡ verifies v }
{
    (low(v) == PV) | (low(v) == EV)
}

// The pulse that control asks for: P alone with PSU, or E alone with ESU.
pub fn opened_by(control: u8) -> Option<Direction>
    ensures { result ≡ opened_by control }
{
    match low(control) {
        P if has(control, PSU) => Some(Direction::Program),
        E if has(control, ESU) => Some(Direction::Erase),
        _ => None,
    }
}

// Whether the bit of value d is set in `old` and not in `new`.
pub fn falls(d: u8, old: u8, new: u8) -> bool
    requires { 0 < d }
    ensures { result ≡ falls d old new }
{
    has(old, d) & !has(new, d)
}

// A flag as its register's bit 7, as the definition has it: a conversion of the bool and a product would be no plainer.
pub fn flag(b: bool) -> u8
    ensures { result ≡ flag b }
{
    if b { FLAG } else { 0 }
}

// The value that a write to F020 stores.
pub fn control_value(v: u8) -> u8
    ensures { result ≡ control_value v }
{
    if has(v, SWE) { v % 128 } else { 0 }
}

// The erase register once control is `new`.
pub fn erase_after(new: u8, erase: u8) -> u8
    ensures { result ≡ erase_after new erase }
{
    if has(new, SWE) { erase } else { 0 }
}

// What a write to F023 stores: one bit or none.
#[tactic(auto, using(crate::proofs::Count::counted))]
pub fn erase_value(v: u8) -> u8
    ensures { result ≡ erase_value v }
{
    if v.count_ones() <= 1 { v } else { 0 }
}

pub fn setup(direction: Direction) -> u8
    ensures { result ≡ setup direction }
{
    match direction {
        Direction::Program => PSU,
        Direction::Erase => ESU,
    }
}
