// The permit of normal reading: a struct that holds the array. It is made under normal reading alone, and read by two thin functions;
// `byte_at` and `word_at`, on the slice, do the work.
#![tactic(auto)]

ghost use Rattle.std.specs.Prelude.{◌≡◌, true, false, suc, ◌+◌, ◌*◌, ◌<◌, length, MatchOption};
ghost use Rattle.lists.specs.Lists.{at};
ghost use Rattle.registers.specs.Pulses.{normal};
ghost use Rattle.permit.specs.Permit.{shown};

use registers::Registers;
use time::Time;

// The array is private: `normal_read` alone makes a permit, and `permit_at` tests for it.
#[derive(Clone, Copy)]
pub struct NormalRead<'a> {
    array: &'a [u8],
}

// The permit, for a caller that has tested that reading is normal. It shows the caller's own array, whole.
pub fn normal_read<'a>(registers: Registers, time: Time, array: &'a [u8]) -> NormalRead<'a>
    requires { normal time registers ≡ true }
    ensures { shown result ≡ array.entry }
{
    NormalRead { array }
}

// The permit where reading is normal, and else none.
pub fn permit_at<'a>(registers: Registers, time: Time, array: &'a [u8]) -> Option<NormalRead<'a>>
    ensures { MatchOption result (normal time registers ≡ false) (λ permit. (normal time registers ≡ true) × (shown permit ≡ array.entry)) }
{
    let normal = registers.normal(time);
    normal.then(|| normal_read(registers, time, array))
}

// Here and below an address lies in the array that is lent, which is a fact of the two together.
fn byte_at(array: &[u8], address: usize) -> u8
    requires { address < length array.now }
    ensures { result ≡ at array.now address }
{
    array[address]
}

// A word is high byte first.
fn word_at(array: &[u8], address: usize) -> u16
    requires { suc address < length array.now }
    ensures { result ≡ 256 * at array.now address + at array.now (suc address) }
{
    u16::from_be_bytes([array[address], array[address + 1]])
}

pub fn read_byte<'a>(permit: NormalRead<'a>, address: usize) -> u8
    requires { address < length (shown permit).now }
    ensures { result ≡ at (shown permit.entry).now address }
{
    byte_at(permit.array, address)
}

pub fn read_word<'a>(permit: NormalRead<'a>, address: usize) -> u16
    requires { suc address < length (shown permit).now }
    ensures { result ≡ 256 * at (shown permit.entry).now address + at (shown permit.entry).now (suc address) }
{
    word_at(permit.array, address)
}

// A permit is made and read at once.
pub fn serve_byte(registers: Registers, time: Time, array: &[u8], address: usize) -> u8
    requires { (normal time registers ≡ true) × (address < length array.now) }
    ensures { result ≡ at array.now address }
{
    read_byte(normal_read(registers, time, array), address)
}

pub fn serve_word(registers: Registers, time: Time, array: &[u8], address: usize) -> u16
    requires { (normal time registers ≡ true) × (suc address < length array.now) }
    ensures { result ≡ 256 * at array.now address + at array.now (suc address) }
{
    read_word(normal_read(registers, time, array), address)
}
