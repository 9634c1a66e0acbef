// Modes and supplies.
ghost use Rattle.std.specs.Prelude.{◌≡◌};
ghost use Rattle.control.specs.Supplies.{supply_number, mode_number, supply_in};

use crate::{Mode, Supply};

// The greatest number of a supply, and of a mode.
pub const LAST_SUPPLY: u8 = 2;

pub const LAST_MODE: u8 = 5;

impl From<Supply> for u8 {
    ghost from_gives = { λ supply n. n ≡ supply_number supply };

    fn from(supply: Supply) -> u8 {
        supply as u8
    }
}

impl From<Mode> for u8 {
    ghost from_gives = { λ mode n. n ≡ mode_number mode };

    fn from(mode: Mode) -> u8 {
        mode as u8
    }
}

// The supply that a mode and the module give.
#[tactic(auto, unfolding(crate::specs::Supplies::supply_in))]
pub fn supply_in(mode: Mode, module: bool, power_down_disabled: bool) -> Supply
    ensures { result ≡ supply_in mode «module» power_down_disabled }
{
    if !module {
        return Supply::Stopped;
    }
    match mode {
        Mode::Active | Mode::Sleep => Supply::Normal,
        Mode::Subactive if power_down_disabled => Supply::Normal,
        Mode::Subactive => Supply::Reduced,
        Mode::Subsleep | Mode::Watch | Mode::Standby => Supply::Stopped,
    }
}
