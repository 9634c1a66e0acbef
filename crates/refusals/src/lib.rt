// Refusals in document 01's own words. They are put as they are, since one of them has a mark of templates in it. Functions that differ in
// a template alone each give their sentence a name. Each takes a refusal, or any number: one that no refusal has is told without words.
#![tactic(auto, using(text::proofs::Joined::some_text))]

ghost use Rattle.text.specs.Says.{SaysSome};

use refusal::Refusal;
use text::Text;

// Each refusal's line of the table.
fn words(why: Refusal) -> &'static [u8] {
    match why {
        Refusal::Firmware => b"firmware not 49,152 bytes",
        Refusal::Memory => {
            b"record not of its one length, array not 49,152 bytes, charge store not 393,216 numbers"
        }
        Refusal::Record => {
            b"record: a byte that is no flag, mode, supply or option; bytes that no state is written as; control bit 7; page or pending address misaligned or past the end; used slots not one-to-one with opened pages"
        }
        Refusal::Place => {
            b"byte read, peek, cell, blank page or data write at C000 hex or more; word BFFF hex or more; bit over 7; mode over 5"
        }
        Refusal::LastSecond => b"whole seconds 2^64-1",
        Refusal::TooEarly => b"before the last settling",
        Refusal::Events => b"pulse open with range of k > 0 bytes and fewer than k+1 words",
        Refusal::Output => b"output too short for image or snapshot",
        Refusal::EndsEarly => b"snapshot ends early",
        Refusal::Field => {
            b"snapshot: flag, mode, supply or option byte unknown; over 384 charge pages; page address misaligned, past the end or repeated; charge over FULL"
        }
        Refusal::LeftOver => b"snapshot: bytes left over",
        Refusal::Invalid => b"snapshot: `validate` says no",
    }
}

// The words of the refusal with a number after what was begun, to the line's end. A number that no refusal has puts no words.
fn ended(text: &mut Text, number: u32)
    ensures { SaysSome text.old text.new }
{
    if let Ok(why) = Refusal::try_from(number) {
        text.put_text(words(why));
    }
    text.put_byte(b'\n');
}

// A call that is refused, with the number of its line.
pub fn refusal<N: Into<u32>>(text: &mut Text, line_number: u64, why: N)
    ensures { SaysSome text.old text.new }
{
    let number: u32 = why.into();
    let numbers = [line_number, u64::from(number)];
    text.say(b"line %: the call is refused, %: ", &numbers);
    ended(text, number);
}

// A file that is no snapshot.
pub fn no_snapshot<N: Into<u32>>(text: &mut Text, word: &[u8], why: N)
    ensures { SaysSome text.old text.new }
{
    let number: u32 = why.into();
    let numbers = [u64::from(number)];
    text.fill(b"wipe: @ is no snapshot, refusal %: ", word, &numbers);
    ended(text, number);
}

// A look of the history that is refused, with the number of its line.
pub fn look_refusal<N: Into<u32>>(text: &mut Text, line_number: u64, why: N)
    ensures { SaysSome text.old text.new }
{
    let number: u32 = why.into();
    let numbers = [line_number, u64::from(number)];
    text.say(b"line %: the look is refused, %: ", &numbers);
    ended(text, number);
}

// A verdict's time at which no look is possible.
pub fn unseen<N: Into<u32>>(text: &mut Text, why: N)
    ensures { SaysSome text.old text.new }
{
    let number: u32 = why.into();
    let numbers = [u64::from(number)];
    text.say(
        b"wipe: the flash can't be looked at then, refused by %: ",
        &numbers,
    );
    ended(text, number);
}
