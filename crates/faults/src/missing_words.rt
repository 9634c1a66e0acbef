// What is missing where a line ends too early. Words are put as they are: nothing is filled in.
ghost use Rattle.text.specs.Says.{SaysSome};

use text::Text;
use words::reason::Reason;

// The sentence on each reason. The last are those that only a word that is there can have.
fn sentence(reason: Reason) -> &'static [u8] {
    match reason {
        Reason::NoTime =>
            b"a time is missing: write seconds (12 or 12.000050), SECONDS:FRACTION, or + and a length",
        Reason::NoCall =>
            b"after the time a call is missing: write, data, read, word, protect, reset, power-off, environment or look",
        Reason::NoRegister =>
            b"a register is missing: FLMCR1, FLMCR2, FLPWCR, EBR1, FENR or four hexadecimal digits",
        Reason::NoAddress => b"an address is missing: four hexadecimal digits",
        Reason::NoByte => b"a byte is missing: two hexadecimal digits",
        Reason::NoValue => b"a value is missing: two hexadecimal digits, or bits joined by +",
        Reason::NoMode =>
            b"a mode is missing: active, subactive, sleep, subsleep, watch or standby",
        Reason::NoModule => b"a word is missing: module or no-module",
        Reason::NoOscillator => b"a word is missing: oscillator or no-oscillator",
        Reason::NoBitNumber => b"a bit is missing: 0 to 7",
        Reason::TooLong => b"the line is longer than 1,000 bytes",
        Reason::TooManyDecimals
        | Reason::TooLarge
        | Reason::NoTimeBefore
        | Reason::PastTheLastInstant
        | Reason::UnknownCall
        | Reason::MoreWords
        | Reason::PastTheEnd
        | Reason::WordPastTheEnd
        | Reason::BitTwice => b"a word is missing",
    }
}

// Says what is missing, for any reason.
pub fn missing(text: &mut Text, reason: Reason)
    ensures { SaysSome text.old text.new }
{
    text.put_text(sentence(reason));
}
