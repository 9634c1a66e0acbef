// The files that a run writes: the state that it reached, and a picture of all cells. Both are drafts until each is whole.
use crate::saying::say_file_trouble;
use crate::{Outlets, Told};
use answers::report::picture_head;
use cell::CELLS;
use drafts::{discard, draft, keep};
use lent::memory::Lent;
use notices::FileTrouble;
use picture::see_shades;
use save::write_snapshot;
use slices::first;
use std::rt::Files;
use text::Text;
use time::Time;

// Room for a picture's head.
const HEAD: usize = 32;

// It is said that a file can't be written.
fn unwritten<S: Print>(says: &S, path: &[u8]) -> Told {
    say_file_trouble(says, FileTrouble::NotWritten, path)
}

// A file that is asked for is drafted, or it is said that it can't be written.
fn drafted<R: Files, S: Print>(
    outlets: Outlets<R, S>,
    path: &[u8],
    head: &[u8],
    rest: &[u8],
) -> Result<(), Told> {
    draft(outlets.rt, path, head, rest).map_err(|_| unwritten(outlets.says, path))
}

// The snapshot is drafted, if one is asked for.
pub fn snapshot_drafted<R: Files, S: Print>(
    outlets: Outlets<R, S>,
    path: Option<&[u8]>,
    lent: Lent,
    buffer: &mut [u8],
) -> Result<(), Told> {
    let Some(path) = path else {
        return Ok(());
    };
    let length = write_snapshot(lent, buffer).map_err(|_| unwritten(outlets.says, path))?;
    drafted(outlets, path, b"", first(buffer, length))
}

// The picture is drafted, if one is asked for.
pub fn picture_drafted<R: Files, S: Print>(
    outlets: Outlets<R, S>,
    path: Option<&[u8]>,
    lent: Lent,
    buffer: &mut [u8],
    time: Time,
) -> Result<(), Told> {
    let Some(path) = path else {
        return Ok(());
    };
    see_shades(lent, time, buffer).map_err(|_| unwritten(outlets.says, path))?;
    let mut head = [0u8; HEAD];
    let mut text = Text::new(&mut head);
    picture_head(&mut text);
    drafted(outlets, path, text.as_bytes(), first(buffer, CELLS))
}

// A file that was asked for takes its name, or its draft is removed.
pub fn kept<R: Files, S: Print>(outlets: Outlets<R, S>, path: Option<&[u8]>) -> Result<(), Told> {
    let Some(path) = path else {
        return Ok(());
    };
    keep(outlets.rt, path).map_err(|_| {
        let told = unwritten(outlets.says, path);
        discard(outlets.rt, path);
        told
    })
}

// A draft of a file that was asked for is removed.
pub fn discarded<R: Files>(rt: &R, path: Option<&[u8]>) {
    if let Some(path) = path {
        discard(rt, path);
    }
}
