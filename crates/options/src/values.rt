// The words of options: which words an option can have, and what they stand for.
ghost use Rattle.std.specs.Prelude.{◌≡◌, ◌<◌, IfSome};
ghost use Rattle.cell.specs.Cell.{array_bytes};
ghost use Rattle.control.specs.Blocks.{blocks};
ghost use Rattle.options.specs.Arguments.{number_below, block_named, address_named, fits, complaint};
ghost use Rattle.options.specs.Options.{time_in, block_in, address_in};

use crate::{Parameter, Trouble};
use cell::ARRAY_BYTES;
use control::blocks::BLOCKS;
use digits::hexadecimal;
use moments::moment_in;
use time::Time;

// A hexadecimal number of so many digits, if it lies below a bound.
fn number_below(bound: u16, digits: usize, word: &[u8]) -> Option<u16>
    ensures is { result ≡ number_below bound digits word.now }
    ensures below { IfSome result (λ n. n < bound) }
{
    let n = hexadecimal(word, digits).ok()?;
    u16::try_from(n).ok().filter(|n| *n < bound)
}

fn block_named(word: &[u8]) -> Option<u16>
    ensures is { result ≡ block_named word.now }
    ensures below { IfSome result (λ n. n < blocks) }
{
    number_below(BLOCKS as u16, 1, word)
}

fn address_named(word: &[u8]) -> Option<u16>
    ensures is { result ≡ address_named word.now }
    ensures below { IfSome result (λ n. n < array_bytes) }
{
    number_below(ARRAY_BYTES, 4, word)
}

// Whether an option can have a word.
#[tactic(auto, unfolding(crate::specs::Arguments::fits))]
pub fn fits(p: Parameter, word: &[u8]) -> bool
    ensures { result ≡ fits p word.now }
{
    match p {
        Parameter::Block => block_named(word).is_some(),
        Parameter::From | Parameter::To => address_named(word).is_some(),
        Parameter::At => moment_in(word, None).is_ok(),
        _ => true,
    }
}

// What is wrong with a word that an option can't have.
pub fn complaint<'a>(p: Parameter, word: &'a [u8]) -> Trouble<'a>
    ensures { result ≡ complaint p word.entry }
{
    match p {
        Parameter::Block => Trouble::NoBlock(word),
        Parameter::At => Trouble::NoTime(word),
        _ => Trouble::NoAddress(word),
    }
}

pub fn block_in(given: Option<&[u8]>) -> Option<u16>
    ensures is { result ≡ block_in given.entry }
    ensures below { IfSome result (λ n. n < blocks) }
{
    given.and_then(block_named)
}

pub fn address_in(given: Option<&[u8]>) -> Option<u16>
    ensures is { result ≡ address_in given.entry }
    ensures below { IfSome result (λ n. n < array_bytes) }
{
    given.and_then(address_named)
}

pub fn time_in(given: Option<&[u8]>) -> Option<Time>
    ensures { result ≡ time_in given.entry }
{
    given.and_then(|word| moment_in(word, None).ok())
}
