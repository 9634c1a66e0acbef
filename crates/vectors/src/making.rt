// How an array begins: from firmware, or from a snapshot. Both are bytes at the beginning of one buffer: each row's snapshot is written
// there, firmware is made there, and patches and cuts change what the next restoring reads.
use crate::memory::Memory;
use crate::row::Row;
use host::looks::flash_new;
use host::snapshots::flash_read_snapshot;
use slices::first;

// Firmware by the row's formula: each byte is the third of a number, and the next number is this one times a factor plus a step.
fn fill(firmware: &mut [u8], row: &Row) {
    let mut number = row.seed();
    for byte in firmware {
        *byte = number.to_le_bytes()[2];
        number = number.wrapping_mul(row.factor()).wrapping_add(row.step());
    }
}

// A new array from so many bytes of firmware, as many as the buffer has of them.
pub fn new(memory: &mut Memory, row: &Row) -> bool {
    let end = (row.size() as usize).min(memory.buffer.len());
    fill(&mut memory.buffer[..end], row);
    let number = flash_new(
        &memory.buffer[..end],
        &mut memory.record,
        &mut memory.array,
        &memory.charges,
    );
    number == u32::from(row.value())
}

// A state from the buffer's first bytes, as many as it has of them.
pub fn restore(memory: &mut Memory, row: &Row, length: u32) -> bool {
    let number = flash_read_snapshot(
        first(&memory.buffer, length as usize),
        &mut memory.record,
        &mut memory.array,
        &mut memory.charges,
        row.seconds(),
        row.fraction(),
    );
    number == u32::from(row.value())
}

// Up to eight bytes of the buffer anew.
pub fn patch(memory: &mut Memory, row: &Row) {
    let at = row.size() as usize;
    for (place, byte) in memory.buffer.iter_mut().skip(at).zip(row.patch()) {
        *place = *byte;
    }
}
