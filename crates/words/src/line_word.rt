// A word in its line, and how a line is read word by word.
ghost use Rattle.std.specs.Prelude.{◌≡◌, ◌≤◌, length, eqb};
ghost use Rattle.byte_search.specs.Search.{slice};
ghost use Rattle.words.specs.Words.{word_at};

use crate::{Word, word_at};

// A word with the line that it stands in. Where no word is left, it is empty and stands where it would begin.
#[derive(Clone, Copy)]
pub struct LineWord<'a> {
    pub line: &'a [u8],
    pub place: Word,
    pub ghost ordered: { place.from ≤ place.to },
    pub ghost inside: { place.to ≤ length line.now },
}

impl<'a> LineWord<'a> {
    // The first word of a line.
    pub fn first(line: &'a [u8]) -> LineWord<'a>
        ensures line { result.line.now ≡ line.now }
        ensures place { result.place ≡ word_at line.now 0 }
    {
        LineWord {
            line,
            place: word_at(line, 0),
        }
    }

    // The next word of its line.
    pub fn next(self) -> LineWord<'a>
        ensures line { result.line.now ≡ self.entry.line.now }
        ensures place { result.place ≡ word_at self.entry.line.now self.entry.place.to }
        ensures after { self.entry.place.to ≤ result.place.from }
    {
        LineWord {
            line: self.line,
            place: word_at(self.line, self.place.to),
        }
    }

    // Whether no word stands there.
    pub fn is_empty(self) -> bool
        ensures { result ≡ eqb self.entry.place.from self.entry.place.to }
    {
        self.place.from == self.place.to
    }

    // The bytes of a word.
    pub fn text(self) -> &'a [u8]
        ensures { result.now ≡ slice self.entry.place.from self.entry.place.to self.entry.line.now }
    {
        &self.line[self.place.from..self.place.to]
    }
}
