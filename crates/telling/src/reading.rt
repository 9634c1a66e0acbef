// Files that are read.
use crate::saying::say_file_trouble;
use crate::{Outlets, Told};
use notices::FileTrouble;
use std::fs;
use std::io::Read;
use std::rt::Files;
use std::str::from_utf8;

// A file that is open for reading, unless there is none that can be read.
pub fn open<R: Files>(rt: &R, path: &[u8]) -> Option<R::File> {
    let name = from_utf8(path).ok()?;
    fs::open(rt, name).ok()
}

// The same; that a file can't be opened is said.
pub fn opened<R: Files, S: Print>(outlets: Outlets<R, S>, path: &[u8]) -> Result<R::File, Told> {
    open(outlets.rt, path).ok_or_else(|| say_file_trouble(
        outlets.says,
        FileTrouble::NotOpened,
        path,
    ))
}

// Reads until the buffer is full, the file ends or a read fails, and answers how many bytes stand at the buffer's start.
pub fn read_full<F: Read>(file: &mut F, buffer: &mut [u8]) -> usize {
    let mut done = 0;
    // No for: a turn goes as far as one read.
    while done < buffer.len() {
        match file.read(&mut buffer[done..]) {
            Ok(0) | Err(_) => return done,
            Ok(n) => done += n,
        }
    }
    done
}
