// Numbers written in digits.
#![tactic(auto)]

ghost use Rattle.std.specs.Prelude.{◌≡◌, ◌≤◌};
ghost use Rattle.digits.specs.Digits.{number_in, hex_in};

// Why a word is no number.
#[derive(Clone, Copy, Debug, PartialEq, Eq)]
pub enum NoNumber {
    TooLarge,
    NotDigits,
}

// A number of 64 bits, by its digits in a base. `from_str_radix` would also take a `+` in front, and wants a text, where a word is any
// bytes.
#[tactic(auto, using(crate::proofs::Steps::steps))]
fn number_in(word: &[u8], base: u32) -> Result<u64, NoNumber>
    requires { (2 ≤ base) × (base ≤ 16) }
    ensures { result ≡ number_in base word.now }
{
    if word.is_empty() {
        return Err(NoNumber::NotDigits);
    }
    let mut n: u64 = 0;
    for b in word {
        let digit = char::from(*b).to_digit(base).ok_or(NoNumber::NotDigits)?;
        let higher = n.checked_mul(u64::from(base)).ok_or(NoNumber::TooLarge)?;
        n = higher
            .checked_add(u64::from(digit))
            .ok_or(NoNumber::TooLarge)?;
    }
    Ok(n)
}

// A decimal number.
pub fn decimal(word: &[u8]) -> Result<u64, NoNumber>
    ensures { result ≡ number_in 10 word.now }
{
    number_in(word, 10)
}

// A hexadecimal number of so many digits, no more and no fewer.
#[tactic(auto, unfolding(crate::specs::Digits::hex_in))]
pub fn hexadecimal(word: &[u8], digits: usize) -> Result<u64, NoNumber>
    ensures { result ≡ hex_in digits word.now }
{
    if word.len() == digits {
        number_in(word, 16)
    } else {
        Err(NoNumber::NotDigits)
    }
}
