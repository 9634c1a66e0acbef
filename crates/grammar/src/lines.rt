// The words of each call, after the word that names it.
ghost use Rattle.std.specs.Prelude.{◌≡◌, MatchResult, Result, Err};
ghost use Rattle.lent.specs.declared.Request.{Request};
ghost use Rattle.grammar.specs.declared.Line.TheVariants.{Call};
ghost use Rattle.grammar.specs.Grammar.{next, ended, value_line, write_line, byte_line, data_line, read_line, word_line, oscillator_line, module_line, environment_line, cell_line, look_line};

use crate::{Line, Looking};
use cell::ARRAY_BYTES;
use fields::{
    Fault, address_in, bit_in, byte_in, mode_in, module_in, oscillator_in, register_in, value_in,
};
use lent::Request;
use time::Time;
use words::LineWord;
use words::reason::Reason;

// A line that ends with the word w: no word is left over.
#[tactic(auto, unfolding(crate::specs::Grammar::ended))]
pub fn ended(whole: Line, w: LineWord) -> Result<Line, Fault>
    ensures { result ≡ ended whole w.entry.line.now w.entry.place }
{
    let over = w.next();
    if over.is_empty() {
        Ok(whole)
    } else {
        Err(Fault::at(Reason::MoreWords, over.place))
    }
}

// A call whose last word is read, and whose request is made of what that word means.
fn last_word<T, R: FnOnce(LineWord) -> Result<T, Fault>, F: FnOnce(T) -> Request>(
    time: Time,
    read: R,
    request: F,
    word: LineWord,
) -> Result<Line, Fault>
    requires reader { R.IsAlwaysCallable read }
    requires request { F.IsAlwaysCallable request }
    ensures { (meant : Result T Fault) × R.post read word.entry meant × MatchResult meant (λ a. (r : Request) × F.post request a r × (result ≡ ended (Call time r) word.entry.line.now word.entry.place)) (λ f. result ≡ Err f) }
{
    ended(Line::Call(time, request(read(word)?)), word)
}

#[tactic(auto, unfolding(crate::specs::Grammar::value_line))]
fn value_line(time: Time, register: u16, w: LineWord) -> Result<Line, Fault>
    ensures { result ≡ value_line time register w.entry.line.now w.entry.place }
{
    last_word(
        time,
        |word| value_in(register, word),
        |value| Request::WriteRegister(register, value),
        w.next(),
    )
}

#[tactic(auto, unfolding(crate::specs::Grammar::write_line))]
pub fn write_line(time: Time, w: LineWord) -> Result<Line, Fault>
    ensures { result ≡ write_line time w.entry.line.now w.entry.place }
{
    let word = w.next();
    value_line(time, register_in(word)?, word)
}

#[tactic(auto, unfolding(crate::specs::Grammar::byte_line))]
fn byte_line(time: Time, address: u16, w: LineWord) -> Result<Line, Fault>
    ensures { result ≡ byte_line time address w.entry.line.now w.entry.place }
{
    last_word(
        time,
        byte_in,
        |value| Request::Write8(address, value),
        w.next(),
    )
}

#[tactic(auto, unfolding(crate::specs::Grammar::data_line))]
pub fn data_line(time: Time, w: LineWord) -> Result<Line, Fault>
    ensures { result ≡ data_line time w.entry.line.now w.entry.place }
{
    let word = w.next();
    let address = address_in(ARRAY_BYTES, Reason::PastTheEnd, word)?;
    byte_line(time, address, word)
}

#[tactic(auto, unfolding(crate::specs::Grammar::read_line))]
pub fn read_line(time: Time, w: LineWord) -> Result<Line, Fault>
    ensures { result ≡ read_line time w.entry.line.now w.entry.place }
{
    last_word(
        time,
        |word| address_in(ARRAY_BYTES, Reason::PastTheEnd, word),
        Request::Read8,
        w.next(),
    )
}

#[tactic(auto, unfolding(crate::specs::Grammar::word_line))]
pub fn word_line(time: Time, w: LineWord) -> Result<Line, Fault>
    ensures { result ≡ word_line time w.entry.line.now w.entry.place }
{
    last_word(
        time,
        |word| address_in(ARRAY_BYTES - 1, Reason::WordPastTheEnd, word),
        Request::Read16,
        w.next(),
    )
}

#[tactic(auto, unfolding(crate::specs::Grammar::oscillator_line))]
fn oscillator_line(time: Time, mode: u8, module: bool, w: LineWord) -> Result<Line, Fault>
    ensures { result ≡ oscillator_line time mode «module» w.entry.line.now w.entry.place }
{
    last_word(
        time,
        oscillator_in,
        |oscillator| Request::Environment(mode, module, oscillator),
        w.next(),
    )
}

#[tactic(auto, unfolding(crate::specs::Grammar::module_line))]
fn module_line(time: Time, mode: u8, w: LineWord) -> Result<Line, Fault>
    ensures { result ≡ module_line time mode w.entry.line.now w.entry.place }
{
    let word = w.next();
    let module = module_in(word)?;
    oscillator_line(time, mode, module, word)
}

#[tactic(auto, unfolding(crate::specs::Grammar::environment_line))]
pub fn environment_line(time: Time, w: LineWord) -> Result<Line, Fault>
    ensures { result ≡ environment_line time w.entry.line.now w.entry.place }
{
    let word = w.next();
    module_line(time, mode_in(word)?, word)
}

#[tactic(auto, unfolding(crate::specs::Grammar::cell_line))]
fn cell_line(time: Time, address: u16, w: LineWord) -> Result<Line, Fault>
    ensures { result ≡ cell_line time address w.entry.line.now w.entry.place }
{
    let word = w.next();
    if word.is_empty() {
        return Ok(Line::Look(time, Looking::Byte(address)));
    }
    let bit = bit_in(word)?;
    ended(Line::Look(time, Looking::Cell(address, bit)), word)
}

#[tactic(auto, unfolding(crate::specs::Grammar::look_line))]
pub fn look_line(time: Time, w: LineWord) -> Result<Line, Fault>
    ensures { result ≡ look_line time w.entry.line.now w.entry.place }
{
    let word = w.next();
    if word.is_empty() {
        return Ok(Line::Look(time, Looking::Whole));
    }
    let address = address_in(ARRAY_BYTES, Reason::PastTheEnd, word)?;
    cell_line(time, address, word)
}
