// The record: the state's bytes, read and written.
#![tactic(auto)]

pub mod state;

ghost use Rattle.std.specs.Prelude.{◌≡◌, ◌++◌, ◌+◌, ◌*◌, ◌<◌, length, take};
ghost use Rattle.rows.specs.Rows.{row_bytes, begins};
ghost use Rattle.layout.specs.Layout.{layout, record_length, instant_count, halves_at, encoded, decoded, head_of, addresses_of, halves_of};

use crate::state::{addresses_of, halves_of, head_of, registers_of};
use flash::Flash;
use layout::{ADDRESSES, HALVES, INDICES, INSTANTS, LATCH, RECORD_LEN, SENSED};
use registers::Registers;
use rows::numbers::Number;
use rows::{put_row, row_at};
use std::array::from_fn;
use time::Time;

// The state that a record holds.
pub fn read(record: &[u8; RECORD_LEN]) -> Flash
    ensures { result ≡ decoded «record».now }
{
    let head = row_at(record, 0);
    let addresses = row_at(record, ADDRESSES);
    let halves: [[u64; 2]; INSTANTS] = from_fn(
        |k|
            requires { k < instant_count }
            ensures { result ≡ halves_at k «record».entry.now }
        { row_at(record, HALVES + Time::WIDTH * k) },
    );
    let latch = row_at(record, LATCH);
    let registers = registers_of(head, addresses, halves, latch);
    Flash {
        registers,
        pulse_since: halves[6].into(),
        sensed: row_at(record, SENSED),
        indices: row_at(record, INDICES),
    }
}

// The rows before the latch.
fn put_scalars(record: &mut [u8], registers: Registers, since: Time)
    requires { length «record».old ≡ record_length }
    ensures { take (begins layout 3) «record».new ≡ row_bytes 1 (head_of registers) ++ row_bytes 2 (addresses_of registers) ++ row_bytes 8 (halves_of registers since) }
{
    put_row(record, 0, &head_of(registers));
    put_row(record, ADDRESSES, &addresses_of(registers));
    put_row(record, HALVES, halves_of(registers, since).as_flattened());
}

// A state's record. It is no array reference: callers know a slice's length together with two others', and would unwrap one at each call.
pub fn write(record: &mut [u8], flash: Flash)
    requires { length «record».old ≡ record_length }
    ensures { «record».new ≡ encoded flash }
{
    put_scalars(record, flash.registers, flash.pulse_since);
    put_row(record, LATCH, &flash.registers.latch);
    put_row(record, SENSED, &flash.sensed);
    put_row(record, INDICES, &flash.indices);
}
