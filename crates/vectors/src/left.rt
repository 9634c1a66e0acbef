// What a call leaves, held against its row.
use crate::looks::{NEITHER, shows};
use crate::memory::Memory;
use crate::row::Row;
use crate::sum::of_bytes;
use bits::{EBR1, FENR, FLMCR1, FLMCR2, FLPWCR};
use host::looks::{flash_image, flash_normal, flash_register};
use host::snapshots::{flash_validate, flash_write_snapshot};
use slices::first;

pub fn register_same(memory: &Memory, address: u16, recorded: u8) -> bool {
    shows(
        0,
        recorded,
        |value| flash_register(&memory.record, address, value),
    )
}

fn registers_same(memory: &Memory, row: &Row) -> bool {
    register_same(memory, FLMCR1, row.flmcr1())
        & register_same(memory, FLMCR2, row.flmcr2())
        & register_same(memory, FLPWCR, row.flpwcr())
        & register_same(memory, EBR1, row.ebr1())
        & register_same(memory, FENR, row.fenr())
}

fn normal_same(memory: &Memory, row: &Row) -> bool {
    shows(
        NEITHER,
        row.normal(),
        |normal| flash_normal(&memory.record, row.seconds(), row.fraction(), normal),
    )
}

fn valid_same(memory: &Memory, row: &Row) -> bool {
    shows(
        NEITHER,
        row.valid(),
        |valid| flash_validate(&memory.record, row.seconds(), row.fraction(), valid),
    )
}

fn image_same(memory: &mut Memory, row: &Row) -> bool {
    let number = flash_image(
        &memory.record,
        &memory.array,
        &memory.charges,
        row.seconds(),
        row.fraction(),
        &mut memory.image,
    );
    number == 0 && of_bytes(&memory.table, &memory.image) == row.image_sum()
}

fn snapshot_same(memory: &mut Memory, row: &Row) -> bool {
    let mut length: u64 = 0;
    let number = flash_write_snapshot(
        &memory.record,
        &memory.array,
        &memory.charges,
        &mut memory.buffer,
        &mut length,
    );
    let recorded = row.snapshot_length();
    let written = first(&memory.buffer, recorded as usize);
    number == 0
        && length == u64::from(recorded)
        && of_bytes(&memory.table, written) == row.snapshot_sum()
}

// What takes no time to see: registers and snapshot. The snapshot stands in the buffer afterwards.
pub fn still_same(memory: &mut Memory, row: &Row) -> bool {
    registers_same(memory, row) & snapshot_same(memory, row)
}

// What is seen at the row's time.
pub fn timed_same(memory: &mut Memory, row: &Row) -> bool {
    normal_same(memory, row) & valid_same(memory, row) & image_same(memory, row)
}
