// Sentences are put together in a small slice and written at once.
use crate::Told;
use faults::fault;
use notices::help::help;
use notices::{FileTrouble, file_trouble, image_length};
use refusals::{look_refusal, no_snapshot, refusal, unseen};
use text::Text;
use words::reason::Reason;

// No sentence is longer.
const ROOM: usize = 4096;

// Writes what a function puts. Whether it could be written makes no difference.
pub(crate) fn say<S: Print, F: FnOnce(&mut Text)>(to: &S, put: F)
    requires { F.IsAlwaysCallable put }
{
    let mut room = [0u8; ROOM];
    let mut text = Text::new(&mut room);
    put(&mut text);
    let _ = to.write_all(text.as_bytes());
}

// ---- while the history runs

pub fn say_progress<R: Eprint>(rt: &R, lines: u64) {
    let _ = eprintln!(rt; "{lines} lines read");
}

// ---- complaints, of refusals or of any number, as `refusals` takes them

// Columns count from 1.
pub fn say_fault<S: Print>(
    to: &S,
    line: u64,
    from: usize,
    word: &[u8],
    reason: Reason,
    goes_on: bool,
) {
    if from < ROOM {
        let column = from as u64 + 1;
        say(to, |text| fault(text, line, column, word, reason, goes_on));
    }
}

pub fn say_refusal<S: Print, N: Into<u32>>(to: &S, line: u64, why: N) {
    let number: u32 = why.into();
    say(to, |text| refusal(text, line, number));
}

pub fn say_look_refused<S: Print, N: Into<u32>>(to: &S, line: u64, why: N) {
    let number: u32 = why.into();
    say(to, |text| look_refusal(text, line, number));
}

// No look is possible at the verdict's time.
pub fn say_unseen<S: Print, N: Into<u32>>(to: &S, why: N) {
    let number: u32 = why.into();
    say(to, |text| unseen(text, number));
}

// ---- help and the report

pub fn say_help<R: Print>(rt: &R) {
    say(rt, |text| help(text));
}

pub fn say_report<R: Print>(rt: &R, report: &[u8]) {
    let _ = rt.write_all(report);
}

// ---- files

// What is wrong with a file is said.
pub fn say_file_trouble<S: Print>(to: &S, trouble: FileTrouble, path: &[u8]) -> Told {
    say(to, |text| file_trouble(text, trouble, path));
    Told
}

pub fn say_image_length<S: Print>(to: &S, path: &[u8], length: u64) {
    say(to, |text| image_length(text, path, length));
}

pub fn say_no_snapshot<S: Print, N: Into<u32>>(to: &S, path: &[u8], why: N) {
    let number: u32 = why.into();
    say(to, |text| no_snapshot(text, path, number));
}
