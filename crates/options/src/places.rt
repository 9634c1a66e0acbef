// The places of the parameters in what is given.
ghost use Rattle.std.specs.Prelude.{◌≡◌};
ghost use Rattle.std.specs.Option.{is_some};
ghost use Rattle.options.specs.Arguments.{place, said_of};

use crate::{Parameter, Said};

pub const PLACES: usize = 13;

impl From<Parameter> for usize {
    ghost from_gives = { λ p n. n ≡ place p };

    fn from(p: Parameter) -> usize {
        p as usize
    }
}

// The word of a parameter, if it is given.
#[tactic(auto, using(crate::proofs::Words::place_within))]
pub fn said_of<'a>(said: Said<'a>, p: Parameter) -> Option<&'a [u8]>
    ensures { result ≡ said_of said.entry p }
{
    said[usize::from(p)]
}

pub fn is_given(said: Said, p: Parameter) -> bool
    ensures { result ≡ is_some (said_of said.entry p) }
{
    said_of(said, p).is_some()
}
