// Words of a line, whether a word spells a name, what it names, and why a line can't be taken.
#![tactic(auto)]

ghost use Rattle.std.specs.Prelude.{◌≡◌, ◌≤◌, length};
ghost use Rattle.std.specs.List.{prefix_len};
ghost use Rattle.words.specs.Words.{blank, in_word, word_at};

pub use crate::line_word::LineWord;

mod line_word;
pub mod names;
pub mod reason;
pub mod spelling;

// A stretch of a line, from its first byte up to, not including, `to`. An empty one is no word, and stands where a word would begin.
// Two columns and no bytes, since a fault is told with its columns, and the definitions speak of them.
#[derive(Clone, Copy, Debug, PartialEq, Eq)]
pub struct Word {
    pub from: usize,
    pub to: usize,
}

fn blank(b: u8) -> bool
    ensures { result ≡ blank b }
{
    b == b' ' || b == b'\t' || b == b'\r'
}

fn in_word(b: u8) -> bool
    ensures { result ≡ in_word b }
{
    !(blank(b) || b == b'#')
}

// How many blanks stand first. The library proves a chain over a test that it sees, so this and the next are no one function over a test.
fn blanks(bytes: &[u8]) -> usize
    ensures is { result ≡ prefix_len blank bytes.now }
    ensures inside { result ≤ length bytes.now }
{
    bytes.iter().take_while(|b| blank(**b)).count()
}

// How many bytes of a word stand first.
fn letters(bytes: &[u8]) -> usize
    ensures is { result ≡ prefix_len in_word bytes.now }
    ensures inside { result ≤ length bytes.now }
{
    bytes.iter().take_while(|b| in_word(**b)).count()
}

// The next word from a place on.
#[tactic(auto, using(crate::proofs::Next::is_word))]
pub fn word_at(line: &[u8], at: usize) -> Word
    requires { at ≤ length line.now }
    ensures is { result ≡ word_at line.now at }
    ensures after { at ≤ result.from }
    ensures ordered { result.from ≤ result.to }
    ensures inside { result.to ≤ length line.now }
{
    let from = at + blanks(&line[at..]);
    let to = from + letters(&line[from..]);
    Word { from, to }
}
