// The marks of a template.
ghost use Rattle.std.specs.Prelude.{◌≡◌};
ghost use Rattle.text.specs.Text.{mark_of, piece};
ghost use Rattle.text.specs.Text.{taken as Text·taken};
ghost use Rattle.text.specs.Says.{Says};

use crate::{Mark, Text};

fn number(padded: bool, hex: bool, places: usize) -> Mark
    ensures { result ≡ Mark.Number padded hex places }
{
    Mark::Number {
        padded,
        hex,
        places,
    }
}

pub fn mark_of(b: u8) -> Mark
    ensures { result ≡ mark_of b }
{
    match b {
        b'%' => number(false, false, 20),
        b'$' => number(true, true, 4),
        b'&' => number(true, true, 2),
        b'^' => number(true, false, 6),
        b'@' => Mark::Word,
        _ => Mark::Plain,
    }
}

// How many numbers a mark takes.
pub fn taken(mark: Mark) -> usize
    ensures { result ≡ Text·taken mark }
{
    match mark {
        Mark::Plain | Mark::Word => 0,
        Mark::Number { .. } => 1,
    }
}

impl Text<'_> {
    // Puts what a byte of a template stands for.
    pub fn put_piece(&mut self, b: u8, word: &[u8], n: u64)
        ensures { Says (piece (mark_of b) b word.now n) self.old self.new }
    {
        match mark_of(b) {
            Mark::Plain => self.put_byte(b),
            Mark::Word => self.put_text(word),
            Mark::Number {
                padded,
                hex,
                places,
            } => self.put_digits(padded, hex, places, n),
        }
    }
}
