// The desk: a history is read from a file, run on the model, and reported. What is parsed, run, counted and put into words is in the
// crates below; here files are read and written.
mod finishing;

use crate::desk::finishing::finish;
use crate::read_history;
use cell::{CELLS, FLASH_SIZE};
use course::memory::{Array, BUFFER, Bench, Buffer, Charges, Events, Record};
use course::{Manner, begun};
use layout::{EVENT_WORDS, RECORD_LEN};
use lent::memory::{Lent, LentMut};
use options::{Asked, Beginning, Options, options_of};
use std::rt::Files;
use telling::beginning::{begin, last_settling};
use telling::saying::say_help;
use telling::troubles::complain;
use telling::{Outlets, Told};

// The memory of a run. What is called with it takes the parts.
#[derive(Drop)]
struct Memory {
    record: Record,
    array: Array,
    charges: Charges,
    events: Events,
    buffer: Buffer,
}

impl Memory {
    // What is looked at.
    fn lent(&self) -> Lent<'_> {
        Lent {
            record: &self.record,
            array: &self.array,
            charges: &self.charges,
        }
    }
}

// A constant, since the arrays of a literal are first made beside the struct, and both have no room on a stack of 8 MB.
const EMPTY: Memory = Memory {
    record: [0; RECORD_LEN],
    array: [0; FLASH_SIZE],
    charges: [0; CELLS],
    events: [0; EVENT_WORDS],
    buffer: [0; BUFFER],
};

// An empty path names no file.
fn some_path(path: Option<&[u8]>) -> Option<&[u8]> {
    path.filter(|path| !path.is_empty())
}

// What a run begins with: an image or a snapshot with an empty path is none, and the flash is empty.
fn some_beginning(begins: Beginning<'_>) -> Beginning<'_> {
    match begins {
        Beginning::Image(path) | Beginning::Snapshot(path) if path.is_empty() => Beginning::Empty,
        _ => begins,
    }
}

// The same with no file that is not named.
fn with_names(options: Options<'_>) -> Options<'_> {
    Options {
        begins: some_beginning(options.begins),
        picture: some_path(options.picture),
        snapshot: some_path(options.snapshot),
        ..options
    }
}

// A run on lent memory.
fn serve<R: Files + Print + Eprint, S: Print>(
    outlets: Outlets<R, S>,
    options: Options,
    memory: &mut Memory,
) -> Result<(), Told> {
    let mut lent = LentMut {
        record: &mut memory.record,
        array: &mut memory.array,
        charges: &mut memory.charges,
    };
    begin(outlets, options.begins, &mut lent, &mut memory.buffer)?;
    let manner = Manner {
        events: options.events,
        go_on: options.go_on,
    };
    let course = begun(last_settling(lent.record));
    let mut bench = Bench {
        memory: lent,
        events: &mut memory.events,
        out: &mut memory.buffer,
    };
    let after = read_history(outlets, options.history, manner, course, &mut bench)?;
    finish(outlets, options, after, memory)
}

fn serve_in_memory<R: Files + Print + Eprint, S: Print>(
    outlets: Outlets<R, S>,
    options: Options,
) -> Result<(), Told> {
    let mut memory = EMPTY;
    serve(outlets, options, &mut memory)
}

// A run of the program with some arguments, which come one after the other, a byte 0 after each. Complaints go to the
// writer that is lent for them. Where a run ends early nothing is left to say.
pub fn work<R: Files + Print + Eprint, S: Print>(rt: &R, args: &[u8], says: &S) {
    match options_of(args) {
        Ok(Asked::Help) => say_help(rt),
        Ok(Asked::Run(options)) => {
            let _ = serve_in_memory(Outlets { rt, says }, with_names(options));
        }
        Err(trouble) => complain(says, trouble),
    }
}
