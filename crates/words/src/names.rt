// The names of a history: what a word names.
ghost use Rattle.std.specs.Prelude.{◌≡◌};
ghost use Rattle.words.specs.Text.{named};
ghost use Rattle.words.specs.Names.{call_named, register_named, modes, modules, oscillators};

use crate::spelling::named;
use bits::{EBR1, FENR, FLMCR1, FLMCR2, FLPWCR};

pub mod values;

// What a line asks for.
#[derive(Clone, Copy, Debug, PartialEq, Eq)]
pub enum Kind {
    Write,
    Data,
    Read,
    Word,
    Protect,
    Reset,
    PowerOff,
    Environment,
    Look,
}

// Why names of bits make no value: one is there twice, or one is no name.
#[derive(Clone, Copy, Debug, PartialEq, Eq)]
pub enum NoBits {
    Twice,
    NoName,
}

pub fn call_named(word: &[u8]) -> Option<Kind>
    ensures { result ≡ call_named word.now }
{
    named(
        word,
        &[
            (b"WRITE", Kind::Write),
            (b"DATA", Kind::Data),
            (b"READ", Kind::Read),
            (b"WORD", Kind::Word),
            (b"PROTECT", Kind::Protect),
            (b"RESET", Kind::Reset),
            (b"POWER-OFF", Kind::PowerOff),
            (b"ENVIRONMENT", Kind::Environment),
            (b"LOOK", Kind::Look),
        ],
    )
}

// A register's address.
pub fn register_named(word: &[u8]) -> Option<u16>
    ensures { result ≡ register_named word.now }
{
    named(
        word,
        &[
            (b"FLMCR1", FLMCR1),
            (b"FLMCR2", FLMCR2),
            (b"FLPWCR", FLPWCR),
            (b"EBR1", EBR1),
            (b"FENR", FENR),
        ],
    )
}

// A mode's number, since a request takes its mode as a number.
pub fn mode_named(word: &[u8]) -> Option<u8>
    ensures { result ≡ named modes word.now }
{
    named(
        word,
        &[
            (b"ACTIVE", 0),
            (b"SUBACTIVE", 1),
            (b"SLEEP", 2),
            (b"SUBSLEEP", 3),
            (b"WATCH", 4),
            (b"STANDBY", 5),
        ],
    )
}

// Whether the module has its supply.
pub fn module_named(word: &[u8]) -> Option<bool>
    ensures { result ≡ named modules word.now }
{
    named(word, &[(b"NO-MODULE", false), (b"MODULE", true)])
}

// Whether the oscillator runs.
pub fn oscillator_named(word: &[u8]) -> Option<bool>
    ensures { result ≡ named oscillators word.now }
{
    named(word, &[(b"NO-OSCILLATOR", false), (b"OSCILLATOR", true)])
}
