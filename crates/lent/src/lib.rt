// Calls and looks over lent memory: their checks in document 01's order, and the new array. What each does and answers is in the
// definitions; the crates `ask` and `see` have the functions. None that a host calls asks for anything.
#![tactic(auto)]

pub mod checking;
pub mod making;
pub mod memory;
pub mod opening;

ghost use Rattle.std.specs.Prelude.{◌≡◌};
ghost use Rattle.lent.specs.Asked.{call_of};

use coding::state::mode_of;
// What a call that is not refused answers.
pub use flash::Answer;
use registers::Call;
use time::Time;

// The calls of the ledger as a host asks for them, with their arguments but the time: a mode is a number here, and may be none. One generic
// enum for these and `registers::Call` would be no plainer: each definition over a call would name the mode's type.
#[derive(Clone, Copy, Debug, PartialEq, Eq)]
pub enum Request {
    WriteRegister(u16, u8),
    Write8(u16, u8),
    Read8(u16),
    Read16(u16),
    Protect,
    Reset,
    PowerOff,
    Environment(u8, bool, bool),
}

// The call that is asked for.
impl From<Request> for Call {
    ghost from_gives = { λ request call. call ≡ call_of request };

    fn from(request: Request) -> Call {
        match request {
            Request::WriteRegister(a, v) => Call::WriteRegister(a, v),
            Request::Write8(a, v) => Call::Write8(a, v),
            Request::Read8(a) => Call::Read8(a),
            Request::Read16(a) => Call::Read16(a),
            Request::Protect => Call::Protect,
            Request::Reset => Call::Reset,
            Request::PowerOff => Call::PowerOff,
            Request::Environment(mode, module, oscillator) => Call::Environment(
                mode_of(mode),
                module,
                oscillator,
            ),
        }
    }
}

// What a call asks for, and when.
#[derive(Clone, Copy, Debug, PartialEq, Eq)]
pub struct Asking {
    pub request: Request,
    pub time: Time,
}
