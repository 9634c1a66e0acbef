// Numbers in bytes, the low byte first.
ghost use Rattle.std.specs.Prelude.{◌≡◌, ℕ, List, ◌++◌, ◌+◌, ◌≤◌, length, map, take};
ghost use Rattle.rows.specs.Rows.{word, bytes};
ghost use Rattle.std.proofs.lemmas.List.{map-id};
ghost use Rattle.std.proofs.Common.{sym};

pub trait Number: Copy {
    // So many bytes.
    ghost WIDTH: { ℕ };

    // The number that a value is, and those of a list of values.
    ghost number: { Self → ℕ };

    ghost numbers: { List Self → List ℕ };

    const WIDTH: usize;

    // The number whose bytes stand from a place on.
    fn get(from: &[u8], at: usize) -> Self
        requires { at + WIDTH ≤ length from.now }
        ensures { number result ≡ word WIDTH from.now at };

    // Its bytes stand from a place on; what is before it stays.
    fn put(self, to: &mut [u8], at: usize)
        requires { at + WIDTH ≤ length to.old }
        ensures { take (at + WIDTH) to.new ≡ take at to.old ++ bytes WIDTH (number self) };

    ghost each: { (values : List Self) → numbers values ≡ map number values };
}

impl Number for u8 {
    ghost WIDTH = { 1 };

    ghost number = { λ value. value };

    ghost numbers = { λ values. values };

    ghost each = { λ values. sym (map-id values) };

    const WIDTH: usize = 1;

    fn get(from: &[u8], at: usize) -> u8 {
        from[at]
    }

    fn put(self, to: &mut [u8], at: usize) {
        to[at] = self;
    }
}

impl Number for u16 {
    ghost WIDTH = { 2 };

    ghost number = { λ value. value };

    ghost numbers = { λ values. values };

    ghost each = { λ values. sym (map-id values) };

    const WIDTH: usize = 2;

    fn get(from: &[u8], at: usize) -> u16 {
        u16::from_le_bytes(*from[at..].first_chunk().unwrap())
    }

    fn put(self, to: &mut [u8], at: usize) {
        to[at..at + 2].copy_from_slice(&self.to_le_bytes());
    }
}

impl Number for u32 {
    ghost WIDTH = { 4 };

    ghost number = { λ value. value };

    ghost numbers = { λ values. values };

    ghost each = { λ values. sym (map-id values) };

    const WIDTH: usize = 4;

    fn get(from: &[u8], at: usize) -> u32 {
        u32::from_le_bytes(*from[at..].first_chunk().unwrap())
    }

    fn put(self, to: &mut [u8], at: usize) {
        to[at..at + 4].copy_from_slice(&self.to_le_bytes());
    }
}

impl Number for u64 {
    ghost WIDTH = { 8 };

    ghost number = { λ value. value };

    ghost numbers = { λ values. values };

    ghost each = { λ values. sym (map-id values) };

    const WIDTH: usize = 8;

    fn get(from: &[u8], at: usize) -> u64 {
        u64::from_le_bytes(*from[at..].first_chunk().unwrap())
    }

    fn put(self, to: &mut [u8], at: usize) {
        to[at..at + 8].copy_from_slice(&self.to_le_bytes());
    }
}
