// The ledger's calls.
ghost use Rattle.std.specs.Prelude.{◌≡◌};
ghost use Rattle.lent.specs.declared.Request.TheVariants.{WriteRegister, Write8, Read8, Read16, Protect, Reset, PowerOff, Environment};
ghost use Rattle.lent.specs.Memory.{lent, moment};
ghost use Rattle.lent.specs.Asked.{outcome, Told};
ghost use Rattle.lent.specs.Looked.{answered};

// A write to a register.
#[unsafe(no_mangle)]
pub extern "C" fn flash_write_register(
    record: &mut [u8],
    array: &mut [u8],
    charges: &mut [u64],
    events: &mut [u64],
    address: u16,
    value: u8,
    seconds: u64,
    fraction: u64,
    count: &mut u64,
) -> u32
    ensures { Told (outcome (WriteRegister address value) (moment seconds fraction) events.old (lent «record».old array.old charges.old)) result count.new (lent «record».new array.new charges.new) events.new }
{
    host::calls::flash_write_register(
        record, array, charges, events, address, value, seconds, fraction, count,
    )
}

// A data write.
#[unsafe(no_mangle)]
pub extern "C" fn flash_write8(
    record: &mut [u8],
    array: &mut [u8],
    charges: &mut [u64],
    events: &mut [u64],
    address: u16,
    value: u8,
    seconds: u64,
    fraction: u64,
    count: &mut u64,
) -> u32
    ensures { Told (outcome (Write8 address value) (moment seconds fraction) events.old (lent «record».old array.old charges.old)) result count.new (lent «record».new array.new charges.new) events.new }
{
    host::calls::flash_write8(
        record, array, charges, events, address, value, seconds, fraction, count,
    )
}

// A byte read.
#[unsafe(no_mangle)]
pub extern "C" fn flash_read8(
    record: &mut [u8],
    array: &mut [u8],
    charges: &mut [u64],
    events: &mut [u64],
    address: u16,
    seconds: u64,
    fraction: u64,
    value: &mut u8,
    count: &mut u64,
) -> u32
    ensures told { Told (outcome (Read8 address) (moment seconds fraction) events.old (lent «record».old array.old charges.old)) result count.new (lent «record».new array.new charges.new) events.new }
    ensures value { value.new ≡ answered result (outcome (Read8 address) (moment seconds fraction) events.old (lent «record».old array.old charges.old)).value value.old }
{
    host::calls::flash_read8(
        record, array, charges, events, address, seconds, fraction, value, count,
    )
}

// A word read, high byte first.
#[unsafe(no_mangle)]
pub extern "C" fn flash_read16(
    record: &mut [u8],
    array: &mut [u8],
    charges: &mut [u64],
    events: &mut [u64],
    address: u16,
    seconds: u64,
    fraction: u64,
    value: &mut u16,
    count: &mut u64,
) -> u32
    ensures told { Told (outcome (Read16 address) (moment seconds fraction) events.old (lent «record».old array.old charges.old)) result count.new (lent «record».new array.new charges.new) events.new }
    ensures value { value.new ≡ answered result (outcome (Read16 address) (moment seconds fraction) events.old (lent «record».old array.old charges.old)).value value.old }
{
    host::calls::flash_read16(
        record, array, charges, events, address, seconds, fraction, value, count,
    )
}

// Protection from outside.
#[unsafe(no_mangle)]
pub extern "C" fn flash_protect(
    record: &mut [u8],
    array: &mut [u8],
    charges: &mut [u64],
    events: &mut [u64],
    seconds: u64,
    fraction: u64,
    count: &mut u64,
) -> u32
    ensures { Told (outcome Protect (moment seconds fraction) events.old (lent «record».old array.old charges.old)) result count.new (lent «record».new array.new charges.new) events.new }
{
    host::calls::flash_protect(record, array, charges, events, seconds, fraction, count)
}

// A reset.
#[unsafe(no_mangle)]
pub extern "C" fn flash_reset(
    record: &mut [u8],
    array: &mut [u8],
    charges: &mut [u64],
    events: &mut [u64],
    seconds: u64,
    fraction: u64,
    count: &mut u64,
) -> u32
    ensures { Told (outcome Reset (moment seconds fraction) events.old (lent «record».old array.old charges.old)) result count.new (lent «record».new array.new charges.new) events.new }
{
    host::calls::flash_reset(record, array, charges, events, seconds, fraction, count)
}

// Power-off.
#[unsafe(no_mangle)]
pub extern "C" fn flash_power_off(
    record: &mut [u8],
    array: &mut [u8],
    charges: &mut [u64],
    events: &mut [u64],
    seconds: u64,
    fraction: u64,
    count: &mut u64,
) -> u32
    ensures { Told (outcome PowerOff (moment seconds fraction) events.old (lent «record».old array.old charges.old)) result count.new (lent «record».new array.new charges.new) events.new }
{
    host::calls::flash_power_off(record, array, charges, events, seconds, fraction, count)
}

// A change of mode, module or oscillator.
#[unsafe(no_mangle)]
pub extern "C" fn flash_environment(
    record: &mut [u8],
    array: &mut [u8],
    charges: &mut [u64],
    events: &mut [u64],
    mode: u8,
    module: bool,
    oscillator: bool,
    seconds: u64,
    fraction: u64,
    count: &mut u64,
) -> u32
    ensures { Told (outcome (Environment mode «module» oscillator) (moment seconds fraction) events.old (lent «record».old array.old charges.old)) result count.new (lent «record».new array.new charges.new) events.new }
{
    host::calls::flash_environment(
        record, array, charges, events, mode, module, oscillator, seconds, fraction, count,
    )
}
