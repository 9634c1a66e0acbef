// Files that are written all or none: each is first made beside its place, as a draft with `.part` behind its name, and takes its name when
// every one of them is whole. What stood there before stays until then.
#![tactic(auto)]

use slices::first;
use std::fs::{OpenFile, OpenOptions};
use std::io::{ErrorKind, Seek, SeekFrom, Write};
use std::rt::Files;
use std::str::from_utf8;
use std::{fs, io};
use text::Text;

// Room for a path, which has at most 4,095 bytes.
pub const PATH_ROOM: usize = 4096;

// A path as text. One that is none names no file.
fn name_of(path: &[u8]) -> io::Result<&str> {
    from_utf8(path).map_err(|_| io::Error::from(ErrorKind::InvalidFilename))
}

// A draft's name, put into a slice. One that is cut off is as long as the slice, which no path is.
fn name_beside<'a>(path: &[u8], room: &'a mut [u8]) -> io::Result<&'a str> {
    let mut text = Text::new(room);
    text.put_text(path);
    text.put_text(b".part");
    let end = text.at;
    name_of(first(room, end))
}

// Gives a file its own length, which only a plain one can be given, and no device or pipe, whose name must stay.
fn keep_length<F: Seek + OpenFile>(file: &mut F) -> io::Result<()> {
    let length = file.seek(SeekFrom::End(0))?;
    file.set_len(length)
}

// Fails unless a name is free, or that of a plain file that may be written.
fn may_take<R: Files>(rt: &R, path: &str) -> io::Result<()> {
    match OpenOptions::new().read(true).write(true).open(rt, path) {
        Ok(mut file) => keep_length(&mut file),
        Err(e) if e.kind() == ErrorKind::NotFound => Ok(()),
        Err(e) => Err(e),
    }
}

// Writes both parts to a file, also on its disk, since nothing is told of a failure to close it. All is tried, whatever fails before, and it
// is closed here, also on an error.
fn write<F: Write + OpenFile + Drop>(mut file: F, head: &[u8], rest: &[u8]) -> io::Result<()> {
    let began = file.write_all(head);
    let went_on = file.write_all(rest);
    let kept = file.sync_all();
    began.and(went_on).and(kept)
}

// Makes a file of two parts, where there is none of that name. On an error there is none of this.
fn made<R: Files>(rt: &R, name: &str, head: &[u8], rest: &[u8]) -> io::Result<()> {
    let file = OpenOptions::new()
        .write(true)
        .create_new(true)
        .open(rt, name)?;
    write(file, head, rest).inspect_err(|_| {
        let _ = fs::remove_file(rt, name);
    })
}

// Makes a draft of two parts. On an error there is none.
pub fn draft<R: Files>(rt: &R, path: &[u8], head: &[u8], rest: &[u8]) -> io::Result<()> {
    may_take(rt, name_of(path)?)?;
    let mut room = [0u8; PATH_ROOM];
    made(rt, name_beside(path, &mut room)?, head, rest)
}

// A draft takes its name.
pub fn keep<R: Files>(rt: &R, path: &[u8]) -> io::Result<()> {
    let mut room = [0u8; PATH_ROOM];
    fs::rename(rt, name_beside(path, &mut room)?, name_of(path)?)
}

// A draft is removed.
pub fn discard<R: Files>(rt: &R, path: &[u8]) {
    let mut room = [0u8; PATH_ROOM];
    if let Ok(beside) = name_beside(path, &mut room) {
        let _ = fs::remove_file(rt, beside);
    }
}
