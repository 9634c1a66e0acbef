// The program for the support desk: the verdict on a history. The work is done by `session::desk`; here its arguments are collected.
#![tactic(auto)]

use drafts::PATH_ROOM;
use slices::first;
use std::env::FillError;
use std::rt::Env;
use text::Text;

// Room for all arguments. Memory is fixed and no list can grow, so they are one text, a byte 0 after each.
const ROOM: usize = 65536;

// An argument that is longer than a path, or more than there is room for.
#[derive(Clone, Copy)]
struct TooLong;

// Argument i, none behind the last.
fn argument<'a, R: Env + Eprint>(
    rt: &R,
    i: usize,
    room: &'a mut [u8],
) -> Result<Option<&'a [u8]>, TooLong> {
    match rt.arg(i, room) {
        Ok(n) => Ok(Some(first(room, n))),
        Err(FillError::NotPresent) => Ok(None),
        Err(FillError::TooLong) => {
            let _ = eprintln!(rt; "wipe: an argument: File name too long");
            Err(TooLong)
        }
    }
}

// The arguments after the program's own name, each with a byte 0 after it.
fn collect<R: Env + Eprint>(rt: &R, args: &mut Text) -> Result<(), TooLong> {
    let mut room = [0u8; PATH_ROOM];
    for i in 1..usize::MAX {
        let Some(word) = argument(rt, i, &mut room)? else {
            break;
        };
        args.put_text(word);
        args.put_byte(0);
        if args.at >= args.out.len() {
            return Err(TooLong);
        }
    }
    Ok(())
}

fn main(rt: HostRuntime) {
    let mut room = [0u8; ROOM];
    let mut args = Text::new(&mut room);
    if collect(&rt, &mut args).is_ok() {
        session::desk::work(&rt, args.as_bytes(), &rt.stderr());
    }
}
