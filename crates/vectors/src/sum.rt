// CRC-32 as zip files have it: polynomial EDB88320 hex, bits from the low end, begun and ended with all bits turned.

// The sums of all bytes. It is made once and lent, since a constant would be built anew at each use.
pub type Table = [u32; 256];

// What a sum begins from, and what turns it into the number that is recorded.
pub const ALL_BITS: u32 = 0xffff_ffff;

const POLYNOMIAL: u32 = 0xedb8_8320;

// A sum after one more bit.
fn shifted(sum: u32) -> u32 {
    if sum % 2 == 1 {
        return (sum / 2) ^ POLYNOMIAL;
    }
    sum / 2
}

// The table's entry for a byte: eight bits later.
fn entry(byte: u32) -> u32 {
    (0..8).fold(byte, |sum, _| shifted(sum))
}

pub fn table() -> Table {
    let mut made = [0u32; 256];
    for (sum, byte) in made.iter_mut().zip(0..256u32) {
        *sum = entry(byte);
    }
    made
}

// A sum after one more byte.
fn fed(table: &Table, sum: u32, byte: u8) -> u32 {
    let low = sum.to_le_bytes()[0];
    table[usize::from(low ^ byte)] ^ (sum / 256)
}

// A sum after some bytes more.
pub fn fed_bytes(table: &Table, begun: u32, bytes: &[u8]) -> u32 {
    bytes.iter().fold(begun, |sum, byte| fed(table, sum, *byte))
}

// A sum after the eight bytes of a word, the low one first.
fn fed_word(table: &Table, begun: u32, word: u64) -> u32 {
    fed_bytes(table, begun, &word.to_le_bytes())
}

// The number of some bytes.
pub fn of_bytes(table: &Table, bytes: &[u8]) -> u32 {
    fed_bytes(table, ALL_BITS, bytes) ^ ALL_BITS
}

// The number of some words.
pub fn of_words(table: &Table, words: &[u64]) -> u32 {
    words
        .iter()
        .fold(ALL_BITS, |sum, word| fed_word(table, sum, *word))
        ^ ALL_BITS
}
