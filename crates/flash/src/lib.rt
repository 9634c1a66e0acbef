// The flash: its registers and the page index of the charge store. What each call does to them and to the lent array, charges and event
// words is in the definitions; the functions are in the crates above.
#![tactic(auto)]

pub mod held;

use cell::PAGES;
use registers::Registers;
use time::Time;

// What is sensed in a fresh array and after a reset.
pub const BLANK_SENSED: [u8; 4] = [0xFF; 4];

// The state but for what is lent. An entry of `indices` is 0 for a page without charges, and slot + 1 for a page with some.
#[derive(Clone, Copy)]
pub struct Flash {
    pub registers: Registers,
    pub pulse_since: Time,
    pub sensed: [u8; 4],
    pub indices: [u16; PAGES],
}

// What an accepted call answers: the value that a read gives, and how many event words were given.
#[derive(Clone, Copy, Debug, Default, PartialEq, Eq)]
pub struct Answer {
    pub value: u16,
    pub count: usize,
}

// What can be read in a page: nothing, since it is blank, or something legible.
#[derive(Clone, Copy, Debug, PartialEq, Eq)]
pub enum PageState {
    Blank,
    Legible,
}
