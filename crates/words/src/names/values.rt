// The value of a register as names of its bits.
ghost use Rattle.std.specs.Prelude.{◌≡◌};
ghost use Rattle.words.specs.Names.{bit_named};
ghost use Rattle.words.specs.Values.{with_bit, bits_named};

use crate::names::NoBits;
use crate::spelling::named;
use bits::{E, EBR1, ESU, EV, FENR, FLAG, FLMCR1, FLMCR2, FLPWCR, P, PSU, PV, SWE, has};

// A bit of a register.
#[tactic(auto, unfolding(crate::specs::Names::bit_named))]
fn bit_named(register: u16, word: &[u8]) -> Option<u8>
    ensures { result ≡ bit_named register word.now }
{
    match register {
        FLMCR1 => named(
            word,
            &[
                (b"SWE", SWE),
                (b"ESU", ESU),
                (b"PSU", PSU),
                (b"EV", EV),
                (b"PV", PV),
                (b"E", E),
                (b"P", P),
            ],
        ),
        FLMCR2 => named(word, &[(b"FLER", FLAG)]),
        FLPWCR => named(word, &[(b"PDWND", FLAG)]),
        EBR1 => named(
            word,
            &[
                (b"EB0", 0x01),
                (b"EB1", 0x02),
                (b"EB2", 0x04),
                (b"EB3", 0x08),
                (b"EB4", 0x10),
                (b"EB5", 0x20),
            ],
        ),
        FENR => named(word, &[(b"FLSHE", FLAG)]),
        _ => None,
    }
}

// A sum and the bit that a part names, which is not in it yet.
#[tactic(auto, using(crate::proofs::Sums::bits))]
fn with_bit(register: u16, sum: u8, part: &[u8]) -> Result<u8, NoBits>
    ensures { result ≡ with_bit sum (bit_named register part.now) }
{
    let bit = bit_named(register, part).ok_or(NoBits::NoName)?;
    if has(sum, bit) {
        return Err(NoBits::Twice);
    }
    Ok(sum + bit)
}

// The value that the names of a register's bits make, which are joined by `+`.
#[tactic(auto, unfolding(crate::specs::Values::bits_named))]
pub fn bits_named(register: u16, word: &[u8]) -> Result<u8, NoBits>
    ensures { result ≡ bits_named register word.now }
{
    let mut sum: u8 = 0;
    for part in word.split(|b| *b == b'+') {
        sum = with_bit(register, sum, part)?;
    }
    Ok(sum)
}
