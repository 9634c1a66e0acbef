// Calls as numbers: kind × 2^24 + first × 2^8 + second. A list of any length comes over the C interface as three numbers a call, so that
// its bounds are clauses.
#![tactic(auto)]

ghost use Rattle.std.specs.Prelude.{◌≡◌, ◌+◌, ◌*◌, ◌<◌, length};
ghost use Rattle.rows.specs.Rows.{flag_byte};
ghost use Rattle.layout.specs.Whole.{TimeFits};
ghost use Rattle.ledger.specs.Lists.{Numbers};
ghost use Rattle.listing.specs.Calls.{first_in, second_in, request_by, request_in, asking_at, packed, word_of};

pub use lent::Asking;
use lent::{Answer, Request};
use refusal::Refusal;

// Numbers of a call in a list: what it asks for, seconds, fraction.
pub const NUMBERS: usize = 3;

// The first call of a list that is not done, and the outcome of the last one that is.
#[derive(Clone, Copy, Debug, PartialEq, Eq)]
pub struct Replayed {
    pub done: usize,
    pub last: Result<Answer, Refusal>,
}

// The values of a kind and of a first argument in a call's number.
pub const KIND: u64 = 0x100_0000;

const FIRST: u64 = 0x100;

// The first argument in a call's number, and the second.
pub fn first_in(what: u64) -> u16
    ensures { result ≡ first_in what }
{
    (what % KIND / FIRST) as u16
}

pub fn second_in(what: u64) -> u8
    ensures { result ≡ second_in what }
{
    (what % FIRST) as u8
}

#[tactic(auto, unfolding(crate::specs::Calls::request_by))]
fn request_by(kind: u64, first: u16, second: u8) -> Request
    ensures { result ≡ request_by kind first second }
{
    match kind {
        0 => Request::WriteRegister(first, second),
        1 => Request::Write8(first, second),
        2 => Request::Read8(first),
        3 => Request::Read16(first),
        4 => Request::Protect,
        5 => Request::Reset,
        6 => Request::PowerOff,
        _ => Request::Environment((first % 256) as u8, second % 2 == 1, second / 2 % 2 == 1),
    }
}

#[tactic(auto, unfolding(crate::specs::Calls::request_in))]
pub fn request_in(what: u64) -> Request
    ensures { result ≡ request_in what }
{
    request_by(what / KIND, first_in(what), second_in(what))
}

// The i-th call of a list.
#[tactic(auto, using(crate::proofs::Numbers::numbers))]
pub fn call_at(calls: &[u64], i: usize) -> Asking
    requires { 3 * i + 2 < length calls.now }
    ensures is { result ≡ asking_at calls.now i }
    ensures fit { Numbers result.request × TimeFits result.time }
{
    let at = NUMBERS * i;
    Asking {
        request: request_in(calls[at]),
        time: [calls[at + 1], calls[at + 2]].into(),
    }
}

fn packed(kind: u64, first: u16, second: u8) -> u64
    requires { kind < 8 }
    ensures { result ≡ packed kind first second }
{
    kind * KIND + u64::from(first) * FIRST + u64::from(second)
}

// Module and oscillator as bits 0 and 1.
fn flags(module: bool, oscillator: bool) -> u8
    ensures { result ≡ flag_byte «module» + 2 * flag_byte oscillator }
{
    u8::from(module) + 2 * u8::from(oscillator)
}

pub fn word_of(request: Request) -> u64
    ensures { result ≡ word_of request }
{
    match request {
        Request::WriteRegister(a, v) => packed(0, a, v),
        Request::Write8(a, v) => packed(1, a, v),
        Request::Read8(a) => packed(2, a, 0),
        Request::Read16(a) => packed(3, a, 0),
        Request::Protect => packed(4, 0, 0),
        Request::Reset => packed(5, 0, 0),
        Request::PowerOff => packed(6, 0, 0),
        Request::Environment(mode, module, oscillator) => packed(
            7,
            u16::from(mode),
            flags(module, oscillator),
        ),
    }
}
