// What the manual fixes: the bits of the registers, the blocks, the waits, and the supply of each mode. All on plain numbers and
// instants; the state that holds them is the crate `registers`. The functions on bits and waits are crates of their own.
#![tactic(auto)]

pub mod blocks;
pub mod supplies;
pub mod verify;

use time::Time;

// The controller's modes, 0 to 5.
#[derive(Clone, Copy, Debug, PartialEq, Eq)]
pub enum Mode {
    Active,
    Subactive,
    Sleep,
    Subsleep,
    Watch,
    Standby,
}

// The array's supply, 0 to 2.
#[derive(Clone, Copy, Debug, PartialEq, Eq)]
pub enum Supply {
    Normal,
    Reduced,
    Stopped,
}

// A verify sense of four bytes from an address on, due at an instant.
#[derive(Clone, Copy, Debug, PartialEq, Eq)]
pub struct PendingSense {
    pub address: u16,
    pub at: Time,
}

// Pages from the first on.
#[derive(Clone, Copy, Debug, PartialEq, Eq)]
pub struct Range {
    pub first: u16,
    pub pages: u16,
}

impl Range {
    ghost use Rattle.std.specs.Prelude.{◌≡◌};
    ghost use Rattle.control.specs.Blocks.{covers};

    // Whether a page lies in it.
    pub fn covers(self, page: usize) -> bool
        ensures { result ≡ covers self page }
    {
        let first = usize::from(self.first);
        let end = first + usize::from(self.pages);
        (first..end).contains(&page)
    }
}
