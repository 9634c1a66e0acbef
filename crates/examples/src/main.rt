// Runs the example histories through the library, as the program `wipe` does, and prints what it would print, complaints too. The file
// `stdout` has what is expected: it was written from the original, without this library.
#![tactic(auto)]

mod drawn;

use std::rt::Files;

// The arguments as they are typed, a space before each.
fn type_words<R: Print>(rt: &R, args: &[u8]) {
    for word in args.split(|b| *b == 0) {
        if !word.is_empty() {
            let _ = rt.write_all(b" ");
            let _ = rt.write_all(word);
        }
    }
}

// One run: its command, what it prints, what it wrote, and an empty line.
fn run<R: Files + Print + Eprint>(rt: &R, args: &[u8]) {
    let _ = rt.write_all(b"$ wipe");
    type_words(rt, args);
    let _ = rt.write_all(b"\n");
    session::desk::work(rt, args, rt);
    drawn::tell(rt);
    let _ = rt.write_all(b"\n");
}

// Each line of the list is a run; each word in it has a byte 0 after it. Lines are parted by a line break, so the last one here, which is
// empty, is a run with no arguments.
fn run_all<R: Files + Print + Eprint>(rt: &R, runs: &[u8]) {
    for line in runs.split(|b| *b == b'\n') {
        run(rt, line);
    }
}

fn main(rt: HostRuntime) {
    run_all(
        &rt,
        b"fresh.history\0\n\
      --events\0programmed.history\0\n\
      --map\0programmed.history\0\n\
      wiped.history\0\n\
      --events\0broken-off.history\0\n\
      --events\0retargeted.history\0\n\
      --map\0charged.history\0\n\
      mistake.history\0\n\
      --go-on\0mistake.history\0\n\
      --block\01\0programmed.history\0\n\
      --from\00080\0--to\000FF\0programmed.history\0\n\
      --at\00.001\0programmed.history\0\n\
      --go-on\0backwards.history\0\n\
      --go-on\0mistakes.history\0\n\
      --events\0absolute.history\0\n\
      --snapshot\0box.snapshot\0programmed.history\0\n\
      --restore\0box.snapshot\0later.history\0\n\
      --image\0box.image\0image.history\0\n\
      --picture\0box.pgm\0programmed.history\0\n\
      --snapshot\0other.snapshot\0--picture\0nowhere/box.pgm\0wiped.history\0\n\
      --restore\0other.snapshot\0wiped.history\0\n\
      --image\0wiped.history\0fresh.history\0\n\
      nowhere.history\0\n\
      --block\06\0fresh.history\0\n\
      --from\00400\0fresh.history\0\n\
      --from\0C000\0--to\000FF\0fresh.history\0\n\
      --maps\0fresh.history\0\n\
      fresh.history\0wiped.history\0\n",
    );
}
