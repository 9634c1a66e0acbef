// Replays the Rust's answers: reads the list that was recorded from the original, runs each of its calls on the proved functions, and
// says for each group whether every answer, and all that it left, is as recorded.
#![tactic(auto)]

mod calls;
mod left;
mod looks;
mod making;
mod memory;
mod row;
mod sum;
mod taking;
mod tally;

use memory::{EMPTY, Memory};
use row::{Kind, Row};
use std::io::Read;
use std::{fs, io};
use taking::taken;
use tally::Tally;

// The file with the list.
const LIST: &str = "answers";

// The next row, none where no whole row is left.
fn next_row<F: Read>(file: &mut F) -> Option<Row> {
    let mut row = Row([0; row::BYTES]);
    file.read_exact(&mut row.0).ok()?;
    Some(row)
}

// All rows up to the one that ends the list, or as far as there are any: then its end is missing. A proved loop has to end, and nothing
// says that a file does, so the turns are counted.
fn replay<R: Print, F: Read>(rt: &R, file: &mut F, memory: &mut Memory) -> Tally {
    let mut t = Tally::begun();
    for _ in 0..u32::MAX {
        let Some(row) = next_row(file) else {
            break;
        };
        if row.kind() == Ok(Kind::End) {
            t.ended(&memory.table, &row);
            break;
        }
        taken(rt, &mut t, memory, &row);
    }
    t
}

// The memory stands in this function alone: a function pays at entry for the size of what it keeps.
fn replay_in_memory<R: Print, F: Read>(rt: &R, file: &mut F) -> Tally {
    let mut memory = EMPTY;
    memory.table = sum::table();
    replay(rt, file, &mut memory)
}

// Whether bytes come after the last row.
fn more<F: Read>(file: &mut F) -> bool {
    let mut one = [0u8; 1];
    file.read_exact(&mut one).is_ok()
}

// The words of an error without its number.
fn words_of(said: &str) -> &str {
    said.split_once(" (os error ")
        .map_or(said, |(words, _)| words)
}

// Why the list can't be read.
fn complain<R: Eprint + AllocGlobal>(rt: &R, error: io::Error) {
    if let Ok(said) = format!(in rt.alloc(); "{error}") {
        let why = words_of(said.as_str());
        let _ = eprintln!(rt; "{LIST}: {why}");
    }
}

fn main(rt: HostRuntime) {
    match fs::open(&rt, LIST) {
        Ok(mut file) => {
            let mut t = replay_in_memory(&rt, &mut file);
            t.whole &= !more(&mut file);
            t.told(&rt);
        }
        Err(error) => complain(&rt, error),
    }
}
