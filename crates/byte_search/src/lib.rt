// Where a byte first stands among some bytes.
#![tactic(auto)]

ghost use Rattle.std.specs.Prelude.{◌≡◌, eqb};
ghost use Rattle.std.specs.List.{position};

// The first place of a byte, if it stands there.
pub fn find(bytes: &[u8], byte: u8) -> Option<usize>
    ensures { result ≡ position (λ b. eqb b byte) bytes.now }
{
    bytes.iter().position(|b| *b == byte)
}
