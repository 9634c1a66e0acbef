// Why a line of a history can't be taken.
#[derive(Clone, Copy, Debug, PartialEq, Eq)]
pub enum Reason {
    // The time.
    NoTime,
    TooManyDecimals,
    TooLarge,
    NoTimeBefore,
    PastTheLastInstant,
    // The call.
    NoCall,
    UnknownCall,
    MoreWords,
    // Its words.
    NoRegister,
    NoAddress,
    PastTheEnd,
    WordPastTheEnd,
    NoByte,
    NoValue,
    BitTwice,
    NoMode,
    NoModule,
    NoOscillator,
    NoBitNumber,
    // The line.
    TooLong,
}
