// The end of a run: the files that were asked for, the report, and last the verdict.
use crate::desk::Memory;
use course::Course;
use lent::memory::Lent;
use options::Options;
use slices::first;
use std::rt::Files;
use summary::report;
use telling::files::{discarded, kept, picture_drafted, snapshot_drafted};
use telling::saying::{say_report, say_unseen};
use telling::{Outlets, Told};
use time::Time;

// No report is longer than 9,214 bytes (crates/summary/proofs/Fits.antt), of which 7,296 are a line for each legible page.
const REPORT: usize = 16384;

// All files that were asked for are drafted, or none is.
fn files_drafted<R: Files, S: Print>(
    outlets: Outlets<R, S>,
    options: Options,
    memory: &mut Memory,
    time: Time,
) -> Result<(), Told> {
    // No `memory.lent()`: it would borrow the whole memory, and the buffer is borrowed beside it.
    let lent = Lent {
        record: &memory.record,
        array: &memory.array,
        charges: &memory.charges,
    };
    snapshot_drafted(outlets, options.snapshot, lent, &mut memory.buffer)?;
    picture_drafted(outlets, options.picture, lent, &mut memory.buffer, time).inspect_err(
        |_| discarded(outlets.rt, options.snapshot),
    )
}

// All of them take their names. Where the first can't, the other's draft is removed.
fn files_kept<R: Files, S: Print>(outlets: Outlets<R, S>, options: Options) -> Result<(), Told> {
    kept(outlets, options.snapshot).inspect_err(|_| discarded(outlets.rt, options.picture))?;
    kept(outlets, options.picture)
}

// The report is made before files are written and said after, so that none is written of what can't be seen.
pub fn finish<R: Files + Print, S: Print>(
    outlets: Outlets<R, S>,
    options: Options,
    course: Course,
    memory: &mut Memory,
) -> Result<(), Told> {
    // The time that was asked for, or that of the last call made.
    let time = options.at.unwrap_or(course.last);
    let mut text = [0u8; REPORT];
    let end = report(
        &mut text,
        course.counts,
        options.judged.into(),
        options.map,
        memory.lent(),
        time,
    )
    .map_err(|why| {
        say_unseen(outlets.says, why);
        Told
    })?;
    files_drafted(outlets, options, memory, time)?;
    files_kept(outlets, options)?;
    say_report(outlets.rt, first(&text, end));
    Ok(())
}
