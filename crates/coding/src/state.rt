// The state as rows of numbers, and back.
ghost use Rattle.std.specs.Prelude.{◌≡◌, flat_map};
ghost use Rattle.layout.specs.Layout.{supply_of, mode_of, head_of, addresses_of, halves_of, registers_of};

use cell::PAGE;
use control::{Mode, PendingSense, Supply};
use layout::{ADDRESS_COUNT, HEAD_COUNT, INSTANTS};
use registers::Registers;
use time::Time;

// A supply and a mode of any byte, as the definitions have them: whether a byte is one is tested before, so there is no `TryFrom`.
#[tactic(auto, unfolding(layout::specs::Layout::supply_of))]
pub fn supply_of(b: u8) -> Supply
    ensures { result ≡ supply_of b }
{
    match b {
        0 => Supply::Normal,
        1 => Supply::Reduced,
        _ => Supply::Stopped,
    }
}

#[tactic(auto, unfolding(layout::specs::Layout::mode_of))]
pub fn mode_of(b: u8) -> Mode
    ensures { result ≡ mode_of b }
{
    match b {
        0 => Mode::Active,
        1 => Mode::Subactive,
        2 => Mode::Sleep,
        3 => Mode::Subsleep,
        4 => Mode::Watch,
        _ => Mode::Standby,
    }
}

// The single bytes.
#[tactic(auto, unfolding(layout::specs::Layout::head_of))]
pub fn head_of(r: Registers) -> [u8; HEAD_COUNT]
    ensures { result ≡ head_of r }
{
    [
        r.control,
        u8::from(r.error),
        r.erase,
        u8::from(r.enabled),
        u8::from(r.power_down_disabled),
        u8::from(r.supply),
        u8::from(r.oscillator),
        u8::from(r.mode),
        u8::from(r.module),
        u8::from(r.verify_pending.is_some()),
    ]
}

#[tactic(auto, unfolding(layout::specs::Layout::addresses_of))]
pub fn addresses_of(r: Registers) -> [u16; ADDRESS_COUNT]
    ensures { result ≡ addresses_of r }
{
    [r.page, r.verify_pending.map_or(0, |due| due.address)]
}

// The halves of the instants, one instant after the other.
#[tactic(auto, unfolding(layout::specs::Layout::halves_of))]
pub fn halves_of(r: Registers, since: Time) -> [[u64; 2]; INSTANTS]
    ensures { flat_map (λ halves. halves) result ≡ halves_of r since }
{
    let instant = r.verify_pending.map_or(Time(0, 0), |due| due.at);
    [
        r.ready.into(),
        r.swe_ready.into(),
        r.program_ready.into(),
        r.erase_ready.into(),
        r.recovery.into(),
        r.verify_ready.into(),
        since.into(),
        instant.into(),
    ]
}

#[tactic(auto, unfolding(layout::specs::Layout::registers_of))]
pub fn registers_of(
    head: [u8; HEAD_COUNT],
    addresses: [u16; ADDRESS_COUNT],
    halves: [[u64; 2]; INSTANTS],
    latch: [u8; PAGE],
) -> Registers
    ensures { result ≡ registers_of head addresses (flat_map (λ halves. halves) halves) latch }
{
    let instants = halves.map(Time::from);
    let pending = PendingSense {
        address: addresses[1],
        at: instants[7],
    };
    Registers {
        control: head[0],
        error: head[1] == 1,
        erase: head[2],
        enabled: head[3] == 1,
        power_down_disabled: head[4] == 1,
        latch,
        page: addresses[0],
        supply: supply_of(head[5]),
        oscillator: head[6] == 1,
        mode: mode_of(head[7]),
        module: head[8] == 1,
        ready: instants[0],
        swe_ready: instants[1],
        program_ready: instants[2],
        erase_ready: instants[3],
        recovery: instants[4],
        verify_ready: instants[5],
        verify_pending: (head[9] == 1).then_some(pending),
    }
}
