// Text put together in a lent slice, from templates with marks for numbers and a word. What does not fit is cut off at the
// slice's end, so no function asks for room. `write!` would promise less: std's clauses on it speak of an `Ok` only, and none says when one
// comes; it also wants text, and a word of a history may be any bytes.
#![tactic(auto)]

ghost use Rattle.std.specs.Prelude.{◌≡◌, [], get_or, take};
ghost use Rattle.text.specs.Text.{filled};
ghost use Rattle.text.specs.Says.{Says};

use crate::marks::{mark_of, taken};
use slices::first;

pub mod marks;
pub mod putting;

// Text that is put together in a lent slice: what is put next stands at `at`, and what does not fit is cut off at the slice's end.
#[derive(Drop)]
pub struct Text<'a> {
    pub out: &'a mut [u8],
    pub at: usize,
}

// What a byte of a template stands for: itself, the word, or a number, hexadecimal or decimal, of which the last
// digits are put, so many places at most, with zeros in front only where it is padded.
#[derive(Clone, Copy)]
pub enum Mark {
    Plain,
    Word,
    Number {
        padded: bool,
        hex: bool,
        places: usize,
    },
}

// The number at an index, and 0 past the end.
fn number_at(numbers: &[u64], i: usize) -> u64
    ensures { result ≡ get_or numbers.now i 0 }
{
    numbers.get(i).copied().unwrap_or(0)
}

impl<'a> Text<'a> {
    // At a slice's start.
    pub fn new(out: &'a mut [u8]) -> Text<'a>
        ensures { result ≡ record { out = out.entry; at = 0 } }
    {
        Text { out, at: 0 }
    }
}

impl Text<'_> {
    // What stands in the slice before the cursor's place.
    pub fn as_bytes(&self) -> &[u8]
        ensures { result.now ≡ take self.now.at self.now.out.now }
    {
        first(self.out, self.at)
    }

    // Puts a template with its marks filled.
    pub fn fill(&mut self, template: &[u8], word: &[u8], numbers: &[u64])
        ensures { Says (filled template.now word.now numbers.now) self.old self.new }
    {
        let mut used: usize = 0;
        for b in template {
            self.put_piece(*b, word, number_at(numbers, used));
            used += taken(mark_of(*b));
        }
    }

    // The same with numbers and no word.
    pub fn say(&mut self, template: &[u8], numbers: &[u64])
        ensures { Says (filled template.now [] numbers.now) self.old self.new }
    {
        self.fill(template, b"", numbers);
    }

    // The same with a word and no numbers.
    pub fn say_word(&mut self, template: &[u8], word: &[u8])
        ensures { Says (filled template.now word.now []) self.old self.new }
    {
        self.fill(template, word, &[]);
    }
}
