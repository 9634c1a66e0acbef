// Looking at an address and a bit: byte, charge and blank page.
use crate::memory::Memory;
use crate::row::Row;
use host::looks::{flash_blank_page, flash_cell_charge, flash_peek};

// A number that no look shows where it shows whether something is so: one which is not written shows.
pub const NEITHER: u8 = 2;

// Whether a look is accepted and shows the recorded value.
pub fn shows<V: Copy + PartialEq, F: FnOnce(&mut V) -> u32>(
    unwritten: V,
    recorded: V,
    look: F,
) -> bool
    requires { F.IsAlwaysCallable look }
{
    let mut value = unwritten;
    look(&mut value) == 0 && value == recorded
}

fn peek_same(memory: &Memory, row: &Row) -> bool {
    shows(0, row.peek(), |value| {
        flash_peek(
            &memory.record,
            &memory.array,
            &memory.charges,
            row.address(),
            row.seconds(),
            row.fraction(),
            value,
        )
    })
}

fn charge_same(memory: &Memory, row: &Row) -> bool {
    shows(0, row.charge(), |value| {
        flash_cell_charge(
            &memory.record,
            &memory.array,
            &memory.charges,
            row.address(),
            row.value(),
            row.seconds(),
            row.fraction(),
            value,
        )
    })
}

fn blank_same(memory: &Memory, row: &Row) -> bool {
    shows(NEITHER, row.blank(), |value| {
        flash_blank_page(
            &memory.record,
            &memory.array,
            &memory.charges,
            row.address(),
            row.seconds(),
            row.fraction(),
            value,
        )
    })
}

pub fn look(memory: &Memory, row: &Row) -> bool {
    peek_same(memory, row) & charge_same(memory, row) & blank_same(memory, row)
}
