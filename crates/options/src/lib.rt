// The arguments of the program: what they ask for, or what is wrong with them.
#![tactic(auto)]

ghost use Rattle.options.specs.Inside.{Answer};

use crate::places::PLACES;
use control::Range;
use time::Time;

mod ending;
mod places;
mod taking;
mod values;

// What words can be given for: the options, first the help, then those with no word after them, then those with one, and the history.
#[derive(Clone, Copy, Debug, PartialEq, Eq)]
pub enum Parameter {
    Help,
    Events,
    Map,
    GoOn,
    Image,
    Restore,
    Picture,
    Snapshot,
    Block,
    From,
    To,
    At,
    History,
}

// What the program is asked for.
#[derive(Clone, Copy)]
pub enum Asked<'a> {
    Help,
    Run(Options<'a>),
}

// What the history begins with: an empty flash, or the file of an image or of a snapshot.
#[derive(Clone, Copy)]
pub enum Beginning<'a> {
    Empty,
    Image(&'a [u8]),
    Snapshot(&'a [u8]),
}

// What a run is asked for.
#[derive(Clone, Copy)]
pub struct Options<'a> {
    pub history: &'a [u8],
    pub begins: Beginning<'a>,
    pub picture: Option<&'a [u8]>,
    pub snapshot: Option<&'a [u8]>,
    pub events: bool,
    pub map: bool,
    pub go_on: bool,
    // The time of the verdict.
    pub at: Option<Time>,
    // The pages that the verdict is about.
    pub judged: Range,
}

// What is wrong with the arguments, with the word that it lies in where that is one.
#[derive(Clone, Copy, Debug, PartialEq, Eq)]
pub enum Trouble<'a> {
    NoSuchOption(&'a [u8]),
    // An option that wants a word after it is the last.
    NothingAfter(&'a [u8]),
    NoBlock(&'a [u8]),
    NoAddress(&'a [u8]),
    NoTime(&'a [u8]),
    NoHistory,
    TwoHistories(&'a [u8]),
    ImageAndRestore,
    BlockAndAddresses,
    // One of --from and --to without the other.
    HalfARange,
    FromAfterTo,
    // An option that is given before.
    Twice(&'a [u8]),
}

// What the next word is.
// The last two are no `Err` that ends the reading by `?`: help is no error, and the definitions take all words one by one.
#[derive(Clone, Copy)]
pub enum Stage<'a> {
    // An option or the history.
    Open,
    // The word of this option, whose name is this word.
    Wants(Parameter, &'a [u8]),
    // No matter, since the help is asked for.
    Helped,
    // No matter, since something is wrong.
    Wrong(Trouble<'a>),
}

// The word of each parameter that is given.
pub type Said<'a> = [Option<&'a [u8]>; PLACES];

// What the words up to a place give, and the stage.
#[derive(Clone, Copy)]
pub struct Given<'a> {
    pub said: Said<'a>,
    pub stage: Stage<'a>,
}

// What the arguments ask for. They come one after the other, with a byte 0 after each: fixed memory has no list of so many words.
#[tactic(auto, using(crate::proofs::Lying::ended_lies), unfolding(crate::specs::Options::options_of))]
pub fn options_of(args: &[u8]) -> Result<Asked<'_>, Trouble<'_>>
    ensures { Answer args.now result }
{
    ending::ended(taking::all_words(args))
}
