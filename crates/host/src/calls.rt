// The ledger's calls.
ghost use Rattle.std.specs.Prelude.{◌≡◌, ◌<◌};
ghost use Rattle.refusal.specs.Refusal.{told};
ghost use Rattle.flash.specs.Chip.{answer_limit};
ghost use Rattle.lent.specs.declared.Request.TheVariants.{WriteRegister, Write8, Read8, Read16, Protect, Reset, PowerOff, Environment};
ghost use Rattle.lent.specs.Memory.{lent, moment};
ghost use Rattle.lent.specs.Asked.{call_of, outcome, value_of, Told};
ghost use Rattle.lent.specs.Looked.{answered};
ghost use Rattle.lent.specs.Views.{memory_at, SameLent};

use ask::ask;
use lent::memory::LentMut;
use lent::{Answer, Asking, Request};
use refusal::{Refusal, told, told_into};
use time::Time;

// Any call, with its count of event words put in its place: none on a refusal.
fn called(
    memory: &mut LentMut,
    events: &mut [u64],
    asking: Asking,
    count: &mut u64,
) -> Result<Answer, Refusal>
    ensures same { SameLent memory.old memory.new }
    ensures left { Told (outcome asking.request asking.time events.old (memory_at memory.old)) (told result) count.new (memory_at memory.new) events.new }
    ensures value { value_of result ≡ (outcome asking.request asking.time events.old (memory_at memory.old)).value }
    ensures limit { value_of result < answer_limit (call_of asking.request) }
{
    let outcome = ask(memory, events, asking);
    *count = outcome.unwrap_or_default().count as u64;
    outcome
}

// A write to a register.
#[unsafe(no_mangle)]
pub extern "C" fn flash_write_register(
    record: &mut [u8],
    array: &mut [u8],
    charges: &mut [u64],
    events: &mut [u64],
    address: u16,
    value: u8,
    seconds: u64,
    fraction: u64,
    count: &mut u64,
) -> u32
    ensures { Told (outcome (WriteRegister address value) (moment seconds fraction) events.old (lent «record».old array.old charges.old)) result count.new (lent «record».new array.new charges.new) events.new }
{
    let mut memory = LentMut {
        record,
        array,
        charges,
    };
    told(called(
        &mut memory,
        events,
        Asking {
            request: Request::WriteRegister(address, value),
            time: Time(seconds, fraction),
        },
        count,
    ))
}

// A data write.
#[unsafe(no_mangle)]
pub extern "C" fn flash_write8(
    record: &mut [u8],
    array: &mut [u8],
    charges: &mut [u64],
    events: &mut [u64],
    address: u16,
    value: u8,
    seconds: u64,
    fraction: u64,
    count: &mut u64,
) -> u32
    ensures { Told (outcome (Write8 address value) (moment seconds fraction) events.old (lent «record».old array.old charges.old)) result count.new (lent «record».new array.new charges.new) events.new }
{
    let mut memory = LentMut {
        record,
        array,
        charges,
    };
    told(called(
        &mut memory,
        events,
        Asking {
            request: Request::Write8(address, value),
            time: Time(seconds, fraction),
        },
        count,
    ))
}

// A byte read.
#[unsafe(no_mangle)]
pub extern "C" fn flash_read8(
    record: &mut [u8],
    array: &mut [u8],
    charges: &mut [u64],
    events: &mut [u64],
    address: u16,
    seconds: u64,
    fraction: u64,
    value: &mut u8,
    count: &mut u64,
) -> u32
    ensures told { Told (outcome (Read8 address) (moment seconds fraction) events.old (lent «record».old array.old charges.old)) result count.new (lent «record».new array.new charges.new) events.new }
    ensures value { value.new ≡ answered result (outcome (Read8 address) (moment seconds fraction) events.old (lent «record».old array.old charges.old)).value value.old }
{
    let mut memory = LentMut {
        record,
        array,
        charges,
    };
    let outcome = called(
        &mut memory,
        events,
        Asking {
            request: Request::Read8(address),
            time: Time(seconds, fraction),
        },
        count,
    );
    told_into(outcome.map(|answer| answer.value as u8), value)
}

// A word read, high byte first.
#[unsafe(no_mangle)]
pub extern "C" fn flash_read16(
    record: &mut [u8],
    array: &mut [u8],
    charges: &mut [u64],
    events: &mut [u64],
    address: u16,
    seconds: u64,
    fraction: u64,
    value: &mut u16,
    count: &mut u64,
) -> u32
    ensures told { Told (outcome (Read16 address) (moment seconds fraction) events.old (lent «record».old array.old charges.old)) result count.new (lent «record».new array.new charges.new) events.new }
    ensures value { value.new ≡ answered result (outcome (Read16 address) (moment seconds fraction) events.old (lent «record».old array.old charges.old)).value value.old }
{
    let mut memory = LentMut {
        record,
        array,
        charges,
    };
    let outcome = called(
        &mut memory,
        events,
        Asking {
            request: Request::Read16(address),
            time: Time(seconds, fraction),
        },
        count,
    );
    told_into(outcome.map(|answer| answer.value), value)
}

// Protection from outside.
#[unsafe(no_mangle)]
pub extern "C" fn flash_protect(
    record: &mut [u8],
    array: &mut [u8],
    charges: &mut [u64],
    events: &mut [u64],
    seconds: u64,
    fraction: u64,
    count: &mut u64,
) -> u32
    ensures { Told (outcome Protect (moment seconds fraction) events.old (lent «record».old array.old charges.old)) result count.new (lent «record».new array.new charges.new) events.new }
{
    let mut memory = LentMut {
        record,
        array,
        charges,
    };
    told(called(
        &mut memory,
        events,
        Asking {
            request: Request::Protect,
            time: Time(seconds, fraction),
        },
        count,
    ))
}

// A reset.
#[unsafe(no_mangle)]
pub extern "C" fn flash_reset(
    record: &mut [u8],
    array: &mut [u8],
    charges: &mut [u64],
    events: &mut [u64],
    seconds: u64,
    fraction: u64,
    count: &mut u64,
) -> u32
    ensures { Told (outcome Reset (moment seconds fraction) events.old (lent «record».old array.old charges.old)) result count.new (lent «record».new array.new charges.new) events.new }
{
    let mut memory = LentMut {
        record,
        array,
        charges,
    };
    told(called(
        &mut memory,
        events,
        Asking {
            request: Request::Reset,
            time: Time(seconds, fraction),
        },
        count,
    ))
}

// Power-off.
#[unsafe(no_mangle)]
pub extern "C" fn flash_power_off(
    record: &mut [u8],
    array: &mut [u8],
    charges: &mut [u64],
    events: &mut [u64],
    seconds: u64,
    fraction: u64,
    count: &mut u64,
) -> u32
    ensures { Told (outcome PowerOff (moment seconds fraction) events.old (lent «record».old array.old charges.old)) result count.new (lent «record».new array.new charges.new) events.new }
{
    let mut memory = LentMut {
        record,
        array,
        charges,
    };
    told(called(
        &mut memory,
        events,
        Asking {
            request: Request::PowerOff,
            time: Time(seconds, fraction),
        },
        count,
    ))
}

// A change of mode, module or oscillator.
#[unsafe(no_mangle)]
pub extern "C" fn flash_environment(
    record: &mut [u8],
    array: &mut [u8],
    charges: &mut [u64],
    events: &mut [u64],
    mode: u8,
    module: bool,
    oscillator: bool,
    seconds: u64,
    fraction: u64,
    count: &mut u64,
) -> u32
    ensures { Told (outcome (Environment mode «module» oscillator) (moment seconds fraction) events.old (lent «record».old array.old charges.old)) result count.new (lent «record».new array.new charges.new) events.new }
{
    let mut memory = LentMut {
        record,
        array,
        charges,
    };
    told(called(
        &mut memory,
        events,
        Asking {
            request: Request::Environment(mode, module, oscillator),
            time: Time(seconds, fraction),
        },
        count,
    ))
}
