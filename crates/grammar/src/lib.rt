// A line of a history.
#![tactic(auto)]

ghost use Rattle.std.specs.Prelude.{◌≡◌};
ghost use Rattle.grammar.specs.Grammar.{line_for, call_line, parsed, line_of};

use crate::lines::{
    data_line, ended, environment_line, look_line, read_line, word_line, write_line,
};
pub use fields::Fault;
use lent::Request;
use moments::moment_in;
use time::Time;
use words::LineWord;
use words::names::{Kind, call_named};
use words::reason::Reason;

mod lines;

// What a line is.
#[derive(Clone, Copy)]
pub enum Line {
    Nothing,
    Call(Time, Request),
    Look(Time, Looking),
    Wrong(Fault),
}

// What a line looks at: the whole flash, a byte by its address, or a cell of it by its bit too.
#[derive(Clone, Copy, Debug, PartialEq, Eq)]
pub enum Looking {
    Whole,
    Byte(u16),
    Cell(u16, u8),
}

#[tactic(auto, unfolding(crate::specs::Grammar::line_for))]
fn line_for(kind: Kind, time: Time, w: LineWord) -> Result<Line, Fault>
    ensures { result ≡ line_for kind time w.entry.line.now w.entry.place }
{
    match kind {
        Kind::Write => write_line(time, w),
        Kind::Data => data_line(time, w),
        Kind::Read => read_line(time, w),
        Kind::Word => word_line(time, w),
        Kind::Protect => ended(Line::Call(time, Request::Protect), w),
        Kind::Reset => ended(Line::Call(time, Request::Reset), w),
        Kind::PowerOff => ended(Line::Call(time, Request::PowerOff), w),
        Kind::Environment => environment_line(time, w),
        Kind::Look => look_line(time, w),
    }
}

#[tactic(auto, unfolding(crate::specs::Grammar::call_line))]
fn call_line(time: Time, w: LineWord) -> Result<Line, Fault>
    ensures { result ≡ call_line time w.entry.line.now w.entry.place }
{
    let called = w.next();
    if called.is_empty() {
        return Err(Fault::at(Reason::NoCall, called.place));
    }
    let kind = call_named(called.text()).ok_or(Fault::at(Reason::UnknownCall, called.place))?;
    line_for(kind, time, called)
}

#[tactic(auto, unfolding(crate::specs::Grammar::parsed))]
fn parsed(line: &[u8], earlier: Option<Time>) -> Result<Line, Fault>
    ensures { result ≡ parsed earlier line.now }
{
    let w = LineWord::first(line);
    if w.is_empty() {
        return Ok(Line::Nothing);
    }
    let time = moment_in(w.text(), earlier).map_err(|reason| Fault::at(reason, w.place))?;
    call_line(time, w)
}

// What a line is, after a line with a time or without one. A wrong line is a line too, which waits to be told in its place.
pub fn parse(line: &[u8], earlier: Option<Time>) -> Line
    ensures { result ≡ line_of earlier line.now }
{
    parsed(line, earlier).unwrap_or_else(Line::Wrong)
}
