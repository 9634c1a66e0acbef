// Event words as numbers: kind × 2^32 + address × 2^16 + value or length.
ghost use Rattle.std.specs.Prelude.{◌≡◌};
ghost use Rattle.settle.specs.Words.{kind_in, address_in, value_in};

// The values of a kind and of an address in a word.
pub const KIND: u64 = 0x1_0000_0000;

pub const ADDRESS: u64 = 0x1_0000;

pub fn kind_in(word: u64) -> u64
    ensures { result ≡ kind_in word }
{
    word / KIND
}

pub fn address_in(word: u64) -> u64
    ensures { result ≡ address_in word }
{
    word % KIND / ADDRESS
}

// The value of a byte, or the length of a pulse.
pub fn value_in(word: u64) -> u64
    ensures { result ≡ value_in word }
{
    word % ADDRESS
}
