// Verify sensing: the four bytes that a settle senses.
#![tactic(auto)]

ghost use Rattle.std.specs.Prelude.{◌≡◌, ◌≤◌, ◌+◌};
ghost use Rattle.cell.specs.Cell.{array_bytes};
ghost use Rattle.settle.specs.Settling.{verify_sense, sense_address, four_sensed, sensed_by};
ghost use Rattle.settle.specs.Views.{cells_in};

use bits::{EV, low, verifies};
use cell::Sense;
use control::verify::sense_due;
use registers::Registers;
use sensing::limits::Ceilings;
use settle::cells::CellsRef;
use std::array::from_fn;
use time::Time;

// By which limit control senses.
fn verify_sense(control: u8) -> Sense
    ensures { result ≡ verify_sense control }
{
    if low(control) == EV {
        return Sense::EraseVerify;
    }
    Sense::ProgramVerify
}

// The four bytes from an address on, as their cells sense. That they lie in the array is a fact of one parameter, here and below.
#[tactic(auto, unfolding(settle::specs::Settling::four_sensed))]
fn sense_four(m: Sense, address: usize, cells: &CellsRef) -> [u8; 4]
    requires { address + 4 ≤ array_bytes }
    ensures { result ≡ four_sensed m address (cells_in cells.now) }
{
    let ceilings = Ceilings::of(m);
    from_fn(|k| ceilings.sense_byte(address + k, &cells.of_byte(address + k)))
}

// The sensed bytes after a settle that left the cells so.
#[tactic(auto, unfolding(settle::specs::Settling::sensed_by))]
pub fn sense(registers: Registers, time: Time, cells: &CellsRef, old: [u8; 4]) -> [u8; 4]
    requires { sense_address registers.verify_pending + 4 ≤ array_bytes }
    ensures { result ≡ sensed_by registers time (cells_in cells.now) old }
{
    let pending = registers.verify_pending;
    let supply = registers.supply;
    let control = registers.control;
    match pending {
        Some(due) if sense_due(pending, supply, time) & verifies(control) => {
            sense_four(verify_sense(control), usize::from(due.address), cells)
        }
        _ => old,
    }
}
