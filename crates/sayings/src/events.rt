// An event in words.
ghost use Rattle.std.specs.Prelude.{◌≡◌};
ghost use Rattle.text.specs.Says.{Says};
ghost use Rattle.sayings.specs.Sayings.{last_address, happened, event_said};

use crate::times::instant;
use settle::event_words::{address_in, kind_in, value_in};
use settling::EventKind;
use text::Text;
use time::Time;

// The last address of the range of a pulse that has ended.
fn last_address(word: u64) -> u64
    ensures { result ≡ last_address word }
{
    (address_in(word) + value_in(word)).saturating_sub(1)
}

// A word of no kind is told as a pulse that was interrupted.
fn put_happened(text: &mut Text, word: u64)
    ensures { Says (happened word) text.old text.new }
{
    let first = address_in(word);
    match EventKind::try_from(kind_in(word)) {
        Ok(EventKind::Byte) => text.say(b": byte $ becomes &\n", &[first, value_in(word)]),
        Ok(EventKind::Completed) => text.say(
            b": the pulse over $ to $ is completed\n",
            &[first, last_address(word)],
        ),
        Ok(EventKind::Interrupted) | Err(_) => text.say(
            b": the pulse over $ to $ is interrupted\n",
            &[first, last_address(word)],
        ),
    }
}

// An event with its time.
pub fn event(text: &mut Text, time: Time, word: u64)
    ensures { Says (event_said time.0 time.1 word) text.old text.new }
{
    text.say(b"at ", &[]);
    instant(text, time);
    put_happened(text, word);
}
