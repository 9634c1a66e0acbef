// One row of the list, taken with the lent memory that the rows before it left.
use crate::calls::call;
use crate::left::{register_same, still_same, timed_same};
use crate::looks::look;
use crate::making::{new, patch, restore};
use crate::memory::Memory;
use crate::row::{Kind, Row};
use crate::tally::Tally;

// Runs what a row asks for, and tells whether the answer is the recorded one.
fn answer(memory: &mut Memory, row: &Row, length: u32) -> bool {
    match row.kind() {
        Ok(Kind::New) => new(memory, row),
        Ok(Kind::Look) => look(memory, row),
        Ok(Kind::Register) => register_same(memory, row.address(), row.value()),
        Ok(Kind::Restore) => restore(memory, row, length),
        _ => call(memory, row),
    }
}

// A refused restoring may have been asked for at a time before the last settling, at which nothing is seen.
fn seen_at_a_time(row: &Row) -> bool {
    row.kind() != Ok(Kind::Restore) || row.value() == 0
}

// Whether all that a row leaves is as recorded.
fn left_same(memory: &mut Memory, row: &Row) -> bool {
    still_same(memory, row) & (!seen_at_a_time(row) || timed_same(memory, row))
}

// A row that has an answer.
fn replayed(t: &mut Tally, memory: &mut Memory, row: &Row) {
    let same = answer(memory, row, t.length);
    let left = left_same(memory, row);
    t.length = row.snapshot_length();
    t.answered(same & left);
}

// One row before the last: its group, its answer, or what it changes in the buffer.
pub fn taken<R: Print>(rt: &R, t: &mut Tally, memory: &mut Memory, row: &Row) {
    t.counted(&memory.table, row);
    match row.kind() {
        Ok(Kind::Group) => t.opened(rt, row),
        Ok(Kind::Patch) => patch(memory, row),
        Ok(Kind::Cut) => t.length = row.size(),
        _ => replayed(t, memory, row),
    }
}
