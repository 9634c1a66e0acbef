// What is made of the words that are taken.
ghost use Rattle.std.specs.Prelude.{◌≡◌};
ghost use Rattle.options.specs.Options.{range_asked, beginning, accepted, whole, ended};

use crate::places::{is_given, said_of};
use crate::values::{address_in, block_in, time_in};
use crate::{Asked, Beginning, Given, Options, Parameter, Said, Stage, Trouble};
use cell::PAGES;
use control::Range;
use control::blocks::{block_range, pages_touched};

// The range that is asked for, by a block or by addresses. Each word that is taken stands for a number, as `fits` has told.
#[tactic(auto, unfolding(crate::specs::Options::range_asked))]
fn range_asked<'a>(
    block: Option<&'a [u8]>,
    from: Option<&'a [u8]>,
    to: Option<&'a [u8]>,
) -> Result<Range, Trouble<'a>>
    ensures { result ≡ range_asked block.entry from.entry to.entry }
{
    match (block_in(block), address_in(from), address_in(to)) {
        (None, None, None) => Ok(Range {
            first: 0,
            pages: PAGES as u16,
        }),
        (Some(block), None, None) => Ok(block_range(usize::from(block))),
        (None, Some(from), Some(to)) if from <= to => Ok(pages_touched(from, to)),
        (None, Some(_), Some(_)) => Err(Trouble::FromAfterTo),
        (None, ..) => Err(Trouble::HalfARange),
        (Some(_), ..) => Err(Trouble::BlockAndAddresses),
    }
}

// What the history begins with, by the files of an image and of a snapshot that are given.
fn beginning<'a>(
    image: Option<&'a [u8]>,
    restore: Option<&'a [u8]>,
) -> Result<Beginning<'a>, Trouble<'a>>
    ensures { result ≡ beginning image.entry restore.entry }
{
    match (image, restore) {
        (None, None) => Ok(Beginning::Empty),
        (Some(path), None) => Ok(Beginning::Image(path)),
        (None, Some(path)) => Ok(Beginning::Snapshot(path)),
        (Some(_), Some(_)) => Err(Trouble::ImageAndRestore),
    }
}

#[tactic(auto, unfolding(crate::specs::Options::accepted))]
fn accepted<'a>(
    said: Said<'a>,
    history: &'a [u8],
    begins: Beginning<'a>,
    range: Range,
) -> Options<'a>
    ensures { result ≡ accepted said.entry history.entry begins.entry range }
{
    Options {
        history,
        begins,
        picture: said_of(said, Parameter::Picture),
        snapshot: said_of(said, Parameter::Snapshot),
        events: is_given(said, Parameter::Events),
        map: is_given(said, Parameter::Map),
        go_on: is_given(said, Parameter::GoOn),
        at: time_in(said_of(said, Parameter::At)),
        judged: range,
    }
}

#[tactic(auto, unfolding(crate::specs::Options::whole))]
fn whole<'a>(said: Said<'a>) -> Result<Asked<'a>, Trouble<'a>>
    ensures { result ≡ whole said.entry }
{
    let history = said_of(said, Parameter::History).ok_or(Trouble::NoHistory)?;
    let image = said_of(said, Parameter::Image);
    let restore = said_of(said, Parameter::Restore);
    let begins = beginning(image, restore)?;
    let block = said_of(said, Parameter::Block);
    let from = said_of(said, Parameter::From);
    let to = said_of(said, Parameter::To);
    let range = range_asked(block, from, to)?;
    Ok(Asked::Run(accepted(said, history, begins, range)))
}

// What is said at the end of the words, by the stage that the last of them leads to.
#[tactic(auto, unfolding(crate::specs::Options::ended))]
pub fn ended<'a>(given: Given<'a>) -> Result<Asked<'a>, Trouble<'a>>
    ensures { result ≡ ended given.entry.said given.entry.stage }
{
    match given.stage {
        Stage::Open => whole(given.said),
        Stage::Wants(_, name) => Err(Trouble::NothingAfter(name)),
        Stage::Helped => Ok(Asked::Help),
        Stage::Wrong(trouble) => Err(trouble),
    }
}
