// The ledger's calls: each is run on the lent memory, and its answer held against the row.
use crate::memory::Memory;
use crate::row::{Kind, Row};
use crate::sum::of_words;
use host::calls::{
    flash_environment, flash_power_off, flash_protect, flash_read8, flash_read16, flash_reset,
    flash_write_register, flash_write8,
};
use slices::first;

// A count that no call gives, so that one which is not written shows.
const UNWRITTEN: u64 = 65536;

// A macro, since the eight differ in how many arguments they take: a closure for each would say its call again.
// The call of that name on the lent memory, at the row's time. What else it is given stands in brackets; its count of event words goes into
// the first variable after them, and what it reads into the next.
macro_rules! run {
    ($name:ident, $memory:ident, $row:ident, [$($given:expr),*], $count:ident $(, $value:ident)?) => {
        $name(
            &mut $memory.record,
            &mut $memory.array,
            &mut $memory.charges,
            &mut $memory.events,
            $($given,)*
            $row.seconds(),
            $row.fraction(),
            $(&mut $value,)?
            &mut $count,
        )
    };
}

// Whether an answer, its event words included, is the recorded one.
fn told(memory: &Memory, row: &Row, number: u32, count: u64, value: u16) -> bool {
    let events = first(&memory.events, usize::from(row.event_count()));
    number == 0
        && count == u64::from(row.event_count())
        && value == row.answer()
        && of_words(&memory.table, events) == row.event_sum()
}

// The call that the row's letter names.
pub fn call(memory: &mut Memory, row: &Row) -> bool {
    let mut count = UNWRITTEN;
    let mut value: u16 = 0;
    let number = match row.kind() {
        Ok(Kind::WriteRegister) => run!(
            flash_write_register,
            memory,
            row,
            [row.address(), row.value()],
            count
        ),
        Ok(Kind::Write8) => run!(
            flash_write8,
            memory,
            row,
            [row.address(), row.value()],
            count
        ),
        Ok(Kind::Read8) => {
            let mut byte: u8 = 0;
            let number = run!(flash_read8, memory, row, [row.address()], count, byte);
            value = u16::from(byte);
            number
        }
        Ok(Kind::Read16) => run!(flash_read16, memory, row, [row.address()], count, value),
        Ok(Kind::Protect) => run!(flash_protect, memory, row, [], count),
        Ok(Kind::Reset) => run!(flash_reset, memory, row, [], count),
        Ok(Kind::PowerOff) => run!(flash_power_off, memory, row, [], count),
        Ok(Kind::Environment) => run!(
            flash_environment,
            memory,
            row,
            [row.value(), row.module(), row.oscillator()],
            count
        ),
        _ => return false,
    };
    told(memory, row, number, count, value)
}
