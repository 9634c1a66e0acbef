// What of the flash depends on no charge: its registers, the latch, the supply and the waits, and the pulse that they open. The chip
// and the ledger share these rules.
#![tactic(auto)]

pub mod pulses;

ghost use Rattle.std.specs.Prelude.{◌≡◌};
ghost use Rattle.registers.specs.Access.{settled};
ghost use Rattle.registers.specs.Environment.{fresh};

use cell::{Direction, PAGE};
use control::verify::sense_due;
use control::{Mode, PendingSense, Supply};
use time::Time;

// The latch of a fresh array and after a reset.
pub const BLANK_LATCH: [u8; PAGE] = [0xff; PAGE];

#[derive(Clone, Copy)]
pub struct Registers {
    pub control: u8,
    pub error: bool,
    pub erase: u8,
    pub enabled: bool,
    pub power_down_disabled: bool,
    pub latch: [u8; PAGE],
    pub page: u16,
    pub supply: Supply,
    pub oscillator: bool,
    pub mode: Mode,
    pub module: bool,
    pub ready: Time,
    pub swe_ready: Time,
    pub program_ready: Time,
    pub erase_ready: Time,
    pub recovery: Time,
    pub verify_ready: Time,
    pub verify_pending: Option<PendingSense>,
}

impl Registers {
    // The registers of a fresh array.
    #[tactic(auto, unfolding(crate::specs::Environment::fresh, crate::specs::Environment::blank_latch, time::specs::Raw::instant))]
    pub fn new() -> Registers
        ensures { result ≡ fresh }
    {
        Registers {
            control: 0,
            error: false,
            erase: 0,
            enabled: false,
            power_down_disabled: false,
            latch: BLANK_LATCH,
            page: 0,
            supply: Supply::Normal,
            oscillator: true,
            mode: Mode::Active,
            module: true,
            ready: Time(0, 0),
            swe_ready: Time(0, 0),
            program_ready: Time(0, 0),
            erase_ready: Time(0, 0),
            recovery: Time(0, 0),
            verify_ready: Time(0, 0),
            verify_pending: None,
        }
    }

    // The registers after a settle: a sense that is due is no longer pending.
    #[tactic(auto, unfolding(crate::specs::Access::settled))]
    pub fn settled(self, now: Time) -> Registers
        ensures { result ≡ settled now self }
    {
        let pending = self.verify_pending;
        let supply = self.supply;
        if sense_due(pending, supply, now) {
            return Registers {
                verify_pending: None,
                ..self
            };
        }
        self
    }
}

// A pulse is its direction, range and ready instant.
#[derive(Clone, Copy, Debug, PartialEq, Eq)]
pub struct Pulse {
    pub direction: Direction,
    pub first: u16,
    pub pages: u16,
    pub ready: Time,
}

// The calls that the ledger enters, with their arguments but the time.
#[derive(Clone, Copy, Debug, PartialEq, Eq)]
pub enum Call {
    WriteRegister(u16, u8),
    Write8(u16, u8),
    Read8(u16),
    Read16(u16),
    Protect,
    Reset,
    PowerOff,
    Environment(Mode, bool, bool),
}

// How a pulse ended.
#[derive(Clone, Copy, Debug, PartialEq, Eq)]
pub enum Ending {
    Completed,
    Interrupted,
}
