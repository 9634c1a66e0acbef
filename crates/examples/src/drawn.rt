// A picture that a run wrote: its length, and its pixels counted and summed up.
use cell::CELLS;
use slices::first;
use std::fs;
use std::rt::Files;
use telling::reading::read_full;
use text::Text;

// The bytes of a picture: its head, then one for each cell.
const HEAD: usize = 15;

fn tell_bytes<R: Print>(rt: &R, bytes: &[u8]) {
    let shades = bytes.get(HEAD..).unwrap_or(&[]);
    let bright = shades.iter().filter(|shade| **shade != 0).count();
    let sum = shades
        .iter()
        .fold(0u64, |sum, shade| sum.saturating_add(u64::from(*shade)));
    let mut room = [0u8; 128];
    let mut text = Text::new(&mut room);
    text.say(
        b"box.pgm: % bytes, % pixels not black, sum %\n",
        &[bytes.len() as u64, bright as u64, sum],
    );
    let _ = rt.write_all(text.as_bytes());
}

// Tells of the picture, if there is one, and removes it.
pub fn tell<R: Files + Print>(rt: &R) {
    let mut bytes = [0u8; HEAD + CELLS + 1];
    let Ok(mut file) = fs::open(rt, "box.pgm") else {
        return;
    };
    let n = read_full(&mut file, &mut bytes);
    tell_bytes(rt, first(&bytes, n));
    let _ = fs::remove_file(rt, "box.pgm");
}
