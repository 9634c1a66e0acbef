// Why a call, a look, a new array or a snapshot is refused, with the number that the table of refusals gives it.
#![tactic(auto)]

ghost use Rattle.std.specs.Prelude.{◌≡◌, MatchResult};
ghost use Rattle.refusal.specs.Refusal.{Decodes, number, told};

#[derive(Clone, Copy, Debug, PartialEq, Eq)]
pub enum Refusal {
    // The firmware of a new array has not its length.
    Firmware = 1,
    // Lent memory has not its lengths.
    Memory = 2,
    // The record is one that no state is written as, or that is not allowed.
    Record = 3,
    // An address, a bit or a mode is past the last one.
    Place = 4,
    // The time is in the last second of all.
    LastSecond = 5,
    // The time is before the last settling.
    TooEarly = 6,
    // There is too little room for event words.
    Events = 7,
    // The output is too short.
    Output = 8,
    // A snapshot ends early, has a field that is none, has bytes left over, or holds a state that is not valid.
    EndsEarly = 9,
    Field = 10,
    LeftOver = 11,
    Invalid = 12,
}

impl From<Refusal> for u32 {
    ghost from_gives = { λ r n. n ≡ number r };

    fn from(refusal: Refusal) -> u32 {
        refusal as u32
    }
}

// A number that no refusal has.
#[derive(Clone, Copy, Debug, PartialEq, Eq)]
pub struct NoRefusal(pub u32);

impl TryFrom<u32> for Refusal {
    type Error = NoRefusal;

    ghost try_from_gives = { Decodes };

    fn try_from(number: u32) -> Result<Refusal, NoRefusal> {
        match number {
            1 => Ok(Refusal::Firmware),
            2 => Ok(Refusal::Memory),
            3 => Ok(Refusal::Record),
            4 => Ok(Refusal::Place),
            5 => Ok(Refusal::LastSecond),
            6 => Ok(Refusal::TooEarly),
            7 => Ok(Refusal::Events),
            8 => Ok(Refusal::Output),
            9 => Ok(Refusal::EndsEarly),
            10 => Ok(Refusal::Field),
            11 => Ok(Refusal::LeftOver),
            12 => Ok(Refusal::Invalid),
            _ => Err(NoRefusal(number)),
        }
    }
}

// The number of an outcome: 0 where there is an answer.
pub fn told<T: Drop>(outcome: Result<T, Refusal>) -> u32
    ensures { result ≡ told outcome }
{
    match outcome {
        Ok(_) => 0,
        Err(refusal) => u32::from(refusal),
    }
}

// The same, with the answer put in a place, as the place has it; a refusal leaves what stands there.
pub fn told_into<T, U: From<T> + Drop>(outcome: Result<T, Refusal>, place: &mut U) -> u32
    ensures { (result ≡ told outcome) × MatchResult outcome (λ value. U.from_gives value place.new) (λ _. place.new ≡ place.old) }
{
    match outcome {
        Ok(value) => {
            *place = U::from(value);
            0
        }
        Err(why) => u32::from(why),
    }
}
