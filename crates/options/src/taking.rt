// What is taken from the arguments, word by word.
ghost use Rattle.std.specs.Prelude.{◌≡◌};
ghost use Rattle.options.specs.Arguments.{parameter_named, wants_word, reached, taken, dashed, plain, option, optional, valued, step_at};
ghost use Rattle.options.specs.Inside.{AllTaken};

use crate::places::{PLACES, is_given};
use crate::values::{complaint, fits};
use crate::{Given, Parameter, Said, Stage, Trouble};
use words::spelling::named;

// The option of a name, and the history for any other word.
#[tactic(auto, unfolding(crate::specs::Arguments::parameter_named))]
fn parameter_named(word: &[u8]) -> Parameter
    ensures { result ≡ parameter_named word.now }
{
    named(
        word,
        &[
            (b"--HELP", Parameter::Help),
            (b"--EVENTS", Parameter::Events),
            (b"--MAP", Parameter::Map),
            (b"--GO-ON", Parameter::GoOn),
            (b"--IMAGE", Parameter::Image),
            (b"--RESTORE", Parameter::Restore),
            (b"--PICTURE", Parameter::Picture),
            (b"--SNAPSHOT", Parameter::Snapshot),
            (b"--BLOCK", Parameter::Block),
            (b"--FROM", Parameter::From),
            (b"--TO", Parameter::To),
            (b"--AT", Parameter::At),
        ],
    )
    .unwrap_or(Parameter::History)
}

fn dashed(word: &[u8]) -> bool
    ensures { result ≡ dashed word.now }
{
    word.first() == Some(&b'-')
}

// The reading has come to a stage, and nothing more is given.
fn reached<'a>(said: Said<'a>, stage: Stage<'a>) -> Given<'a>
    ensures { result ≡ reached said.entry stage.entry }
{
    Given { said, stage }
}

#[tactic(auto, using(crate::proofs::Words::place_within))]
fn taken<'a>(said: Said<'a>, p: Parameter, word: &'a [u8]) -> Given<'a>
    ensures { result ≡ taken said.entry p word.entry }
{
    let mut all = said;
    all[usize::from(p)] = Some(word);
    Given {
        said: all,
        stage: Stage::Open,
    }
}

#[tactic(auto, unfolding(crate::specs::Arguments::plain))]
fn plain<'a>(said: Said<'a>, word: &'a [u8]) -> Given<'a>
    ensures { result ≡ plain said.entry word.entry }
{
    if dashed(word) {
        return reached(said, Stage::Wrong(Trouble::NoSuchOption(word)));
    }
    if is_given(said, Parameter::History) {
        return reached(said, Stage::Wrong(Trouble::TwoHistories(word)));
    }
    taken(said, Parameter::History, word)
}

// Whether an option has a word after it.
fn wants_word(p: Parameter) -> bool
    ensures { result ≡ wants_word p }
{
    !matches!(
        p,
        Parameter::Help | Parameter::Events | Parameter::Map | Parameter::GoOn
    )
}

#[tactic(auto, unfolding(crate::specs::Arguments::option))]
fn option<'a>(said: Said<'a>, p: Parameter, word: &'a [u8]) -> Given<'a>
    ensures { result ≡ option said.entry p word.entry }
{
    if is_given(said, p) {
        return reached(said, Stage::Wrong(Trouble::Twice(word)));
    }
    if wants_word(p) {
        return reached(said, Stage::Wants(p, word));
    }
    taken(said, p, word)
}

#[tactic(auto, unfolding(crate::specs::Arguments::optional))]
fn optional<'a>(said: Said<'a>, p: Parameter, word: &'a [u8]) -> Given<'a>
    ensures { result ≡ optional said.entry p word.entry }
{
    match p {
        Parameter::Help => reached(said, Stage::Helped),
        Parameter::History => plain(said, word),
        _ => option(said, p, word),
    }
}

#[tactic(auto, unfolding(crate::specs::Arguments::valued))]
fn valued<'a>(said: Said<'a>, p: Parameter, word: &'a [u8]) -> Given<'a>
    ensures { result ≡ valued said.entry p word.entry }
{
    if fits(p, word) {
        return taken(said, p, word);
    }
    reached(said, Stage::Wrong(complaint(p, word)))
}

#[tactic(auto, unfolding(crate::specs::Arguments::step_at))]
fn step_at<'a>(given: Given<'a>, word: &'a [u8]) -> Given<'a>
    ensures { result ≡ step_at given.entry.said given.entry.stage word.entry }
{
    match given.stage {
        Stage::Open => optional(given.said, parameter_named(word), word),
        Stage::Wants(p, _) => valued(given.said, p, word),
        Stage::Helped | Stage::Wrong(_) => given,
    }
}

// What all words give.
pub fn all_words(args: &[u8]) -> Given<'_>
    ensures { AllTaken args.now result }
{
    let mut given = Given {
        said: [None; PLACES],
        stage: Stage::Open,
    };
    for piece in args.split_inclusive(|b| *b == 0) {
        if let Some(word) = piece.strip_suffix(&[0]) {
            given = step_at(given, word);
        }
    }
    given
}
