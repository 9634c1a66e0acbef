// Bytes, texts and digits put into a slice, cut off at its end.
ghost use Rattle.std.specs.Prelude.{◌≡◌, [], ◌∷◌, ◌<◌};
ghost use Rattle.text.specs.Text.{digits, base};
ghost use Rattle.text.specs.Text.{digit as Text·digit};
ghost use Rattle.text.specs.Says.{Says};

use crate::Text;

// In capitals, which `char::from_digit` does not give.
fn digit(d: u64) -> u8
    requires { d < 16 }
    ensures { result ≡ Text·digit d }
{
    if d < 10 {
        b'0' + d as u8
    } else {
        b'A' - 10 + d as u8
    }
}

impl Text<'_> {
    // Puts a byte where there is room for it.
    pub fn put_byte(&mut self, b: u8)
        ensures { Says (b ∷ []) self.old self.new }
    {
        if self.at < self.out.len() {
            self.out[self.at] = b;
            self.at += 1;
        }
    }

    // Puts what of some bytes fits.
    pub fn put_text(&mut self, bytes: &[u8])
        ensures { Says bytes.now self.old self.new }
    {
        if self.out.len() <= self.at {
            return;
        }
        let end = self.at + bytes.len().min(self.out.len() - self.at);
        self.out[self.at..end].copy_from_slice(&bytes[..end - self.at]);
        self.at = end;
    }

    // Puts the last k digits of a number, the highest first, with zeros in front only where it is padded.
    pub fn put_digits(&mut self, padded: bool, hex: bool, k: usize, n: u64)
        ensures { Says (digits padded (base hex) k n) self.old self.new }
    {
        if k > 0 {
            let base = if hex { 16 } else { 10 };
            if padded | (base <= n) {
                self.put_digits(padded, hex, k - 1, n / base);
            }
            self.put_byte(digit(n % base));
        }
    }
}
