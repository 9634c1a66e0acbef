// What is wrong with a word of a line.
ghost use Rattle.text.specs.Says.{SaysSome};

use text::Text;
use words::reason::Reason;

// The sentence on each reason, with @ for the word.
fn template(reason: Reason) -> &'static [u8] {
    match reason {
        Reason::NoTime =>
            b"@ is no time: write seconds (12 or 12.000050), SECONDS:FRACTION, or + and a length",
        Reason::TooManyDecimals =>
            b"@ has more than six decimals; for a finer time write SECONDS:FRACTION",
        Reason::TooLarge => b"@ has a number over 18446744073709551615",
        Reason::NoTimeBefore => b"@ counts from the line before, and no line before has a time",
        Reason::PastTheLastInstant => b"@ leads past the last time that there is",
        Reason::NoCall | Reason::UnknownCall => {
            b"@ is no call: write, data, read, word, protect, reset, power-off, environment or look"
        }
        Reason::NoRegister =>
            b"@ is no register: FLMCR1, FLMCR2, FLPWCR, EBR1, FENR or four hexadecimal digits",
        Reason::NoAddress => b"@ is no address: four hexadecimal digits",
        Reason::PastTheEnd => b"address @ is past the end of the flash",
        Reason::WordPastTheEnd => b"a word at @ reaches past the end of the flash",
        Reason::NoByte => b"@ is no byte: two hexadecimal digits",
        Reason::NoValue =>
            b"@ is neither two hexadecimal digits nor bits of this register joined by +",
        Reason::BitTwice => b"@ names a bit twice",
        Reason::NoBitNumber => b"@ is no bit: 0 to 7",
        Reason::NoMode => b"@ is no mode: active, subactive, sleep, subsleep, watch or standby",
        Reason::NoModule => b"@ is neither module nor no-module",
        Reason::NoOscillator => b"@ is neither oscillator nor no-oscillator",
        Reason::MoreWords => b"@ is a word too many",
        Reason::TooLong => b"the line is longer than 1,000 bytes",
    }
}

// Says what is wrong with a word, for any reason.
pub fn wrong(text: &mut Text, word: &[u8], reason: Reason)
    ensures { SaysSome text.old text.new }
{
    text.say_word(template(reason), word);
}
