// What each word of a call means. A number is narrowed where its digits bound it: two are below 2^8, four below 2^16.
#![tactic(auto)]

ghost use Rattle.std.specs.Prelude.{◌≡◌, ◌<◌, ◌^◌, IfOk};
ghost use Rattle.digits.specs.Digits.{hex_in};
ghost use Rattle.fields.specs.Fields.{bytes_of, below, fault_at, number_of, register_in, value_in, address_in, byte_in, bit_in, mode_in, module_in, oscillator_in};

use digits::hexadecimal;
use words::names::values::bits_named;
use words::names::{NoBits, mode_named, module_named, oscillator_named, register_named};
use words::reason::Reason;
use words::{LineWord, Word};

// Why a line can't be taken, and the stretch of it that is wrong, which is empty where something is missing.
#[derive(Clone, Copy, Debug, PartialEq, Eq)]
pub struct Fault {
    pub reason: Reason,
    pub place: Word,
}

impl Fault {
    // A fault that lies in a word.
    pub fn at(reason: Reason, w: Word) -> Fault
        ensures { result ≡ fault_at reason w }
    {
        Fault { reason, place: w }
    }
}

// A hexadecimal number of so many digits, or a fault for the reason.
#[tactic(auto, using(crate::proofs::Digits::hex))]
fn number_in(digits: usize, reason: Reason, w: LineWord) -> Result<u64, Fault>
    ensures is { result ≡ number_of reason w.entry.place (hex_in digits (bytes_of w.entry.line.now w.entry.place)) }
    ensures below { IfOk result (λ n. n < 16 ^ digits) }
{
    hexadecimal(w.text(), digits).map_err(|_| Fault::at(reason, w.place))
}

// A register's address, by its name or by four digits.
#[tactic(auto, unfolding(crate::specs::Fields::register_in))]
pub fn register_in(w: LineWord) -> Result<u16, Fault>
    ensures { result ≡ register_in w.entry.line.now w.entry.place }
{
    if let Some(register) = register_named(w.text()) {
        return Ok(register);
    }
    Ok(number_in(4, Reason::NoRegister, w)? as u16)
}

// The value of a register, by two digits or by names of its bits.
#[tactic(auto, using(crate::proofs::Digits::hex), unfolding(crate::specs::Fields::value_in))]
pub fn value_in(register: u16, w: LineWord) -> Result<u8, Fault>
    ensures { result ≡ value_in register w.entry.line.now w.entry.place }
{
    let text = w.text();
    if let Ok(n) = hexadecimal(text, 2) {
        return Ok(n as u8);
    }
    bits_named(register, text).map_err(|why| match why {
        NoBits::Twice => Fault::at(Reason::BitTwice, w.place),
        NoBits::NoName => Fault::at(Reason::NoValue, w.place),
    })
}

// A number of so many digits below a limit, with a reason for what is no such number and one for what lies past the limit.
fn number_below(
    digits: usize,
    limit: u64,
    none: Reason,
    past: Reason,
    w: LineWord,
) -> Result<u64, Fault>
    ensures is { result ≡ below limit past w.entry.place (number_of none w.entry.place (hex_in digits (bytes_of w.entry.line.now w.entry.place))) }
    ensures below { IfOk result (λ n. n < limit) }
{
    let n = number_in(digits, none, w)?;
    if n < limit {
        Ok(n)
    } else {
        Err(Fault::at(past, w.place))
    }
}

// An address below a limit, which has four digits.
#[tactic(auto, unfolding(crate::specs::Fields::address_in))]
pub fn address_in(limit: u16, past: Reason, w: LineWord) -> Result<u16, Fault>
    ensures { result ≡ address_in limit past w.entry.line.now w.entry.place }
{
    Ok(number_below(4, u64::from(limit), Reason::NoAddress, past, w)? as u16)
}

#[tactic(auto, unfolding(crate::specs::Fields::byte_in))]
pub fn byte_in(w: LineWord) -> Result<u8, Fault>
    ensures { result ≡ byte_in w.entry.line.now w.entry.place }
{
    Ok(number_in(2, Reason::NoByte, w)? as u8)
}

// A bit's number, 0 to 7.
#[tactic(auto, unfolding(crate::specs::Fields::bit_in))]
pub fn bit_in(w: LineWord) -> Result<u8, Fault>
    ensures { result ≡ bit_in w.entry.line.now w.entry.place }
{
    Ok(number_below(1, 8, Reason::NoBitNumber, Reason::NoBitNumber, w)? as u8)
}

// A mode and two supplies have each a table, a type and a reason of their own. One function over them would have three parameters for one
// line.
#[tactic(auto, unfolding(crate::specs::Fields::mode_in))]
pub fn mode_in(w: LineWord) -> Result<u8, Fault>
    ensures { result ≡ mode_in w.entry.line.now w.entry.place }
{
    mode_named(w.text()).ok_or(Fault::at(Reason::NoMode, w.place))
}

#[tactic(auto, unfolding(crate::specs::Fields::module_in))]
pub fn module_in(w: LineWord) -> Result<bool, Fault>
    ensures { result ≡ module_in w.entry.line.now w.entry.place }
{
    module_named(w.text()).ok_or(Fault::at(Reason::NoModule, w.place))
}

#[tactic(auto, unfolding(crate::specs::Fields::oscillator_in))]
pub fn oscillator_in(w: LineWord) -> Result<bool, Fault>
    ensures { result ≡ oscillator_in w.entry.line.now w.entry.place }
{
    oscillator_named(w.text()).ok_or(Fault::at(Reason::NoOscillator, w.place))
}
