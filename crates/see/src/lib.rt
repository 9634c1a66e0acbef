// Looking over lent memory: the checks that concern what is taken, then the answer. Nothing is kept.
#![tactic(auto)]

ghost use Rattle.std.specs.Prelude.{◌≡◌, length};
ghost use Rattle.refusal.specs.Refusal.{told, Answers};
ghost use Rattle.registers.specs.Pulses.{normal};
ghost use Rattle.flash.specs.Looking.{blank_at};
ghost use Rattle.layout.specs.Layout.{decoded};
ghost use Rattle.lent.specs.Memory.{chip_in};
ghost use Rattle.lent.specs.Views.{memory_in};
ghost use Rattle.lent.specs.Looked.{register_refusal, register_answer, normal_refusal, peek_refusal, peek_answer, charge_refusal, charge_answer, blank_refusal, image_refusal, image_left};

use access::register;
use cell::FLASH_SIZE;
use lent::checking::{address_place, cell_place, in_time};
use lent::memory::Lent;
use lent::opening::opened_record;
use look::imaging::{blank_page, image, peek};
use look::looking::cell_charge;
use refusal::Refusal;
use time::Time;

// What a register reads.
#[tactic(auto, unfolding(lent::specs::Looked::register_answer))]
pub fn see_register(record: &[u8], address: u16) -> Result<u8, Refusal>
    ensures { Answers (register_refusal «record».now) (register_answer «record».now address) result }
{
    let flash = opened_record(record)?;
    Ok(register(flash.registers, address))
}

// Whether reading is normal at a time.
#[tactic(auto, unfolding(lent::specs::Memory::time_refusal, lent::specs::Looked::register_refusal, lent::specs::Looked::normal_refusal))]
pub fn see_normal(record: &[u8], time: Time) -> Result<bool, Refusal>
    ensures { Answers (normal_refusal «record».now time) (normal time (decoded «record».now).registers) result }
{
    let flash = opened_record(record)?;
    in_time(&flash, time)?;
    let registers = flash.registers;
    Ok(registers.normal(time))
}

// A byte of the image at a time.
#[tactic(auto, unfolding(lent::specs::Looked::peek_refusal, lent::specs::Looked::peek_answer))]
pub fn see_byte(lent: Lent, address: u16, time: Time) -> Result<u8, Refusal>
    ensures { Answers (peek_refusal address time (memory_in lent.entry)) (peek_answer address time (memory_in lent.entry)) result }
{
    let place = address_place(address);
    let held = lent.opened_at(place, time)?;
    Ok(peek(&held, usize::from(address), time))
}

// A cell's charge at a time.
#[tactic(auto, unfolding(lent::specs::Looked::charge_refusal, lent::specs::Looked::charge_answer))]
pub fn see_charge(lent: Lent, address: u16, bit: u8, time: Time) -> Result<u64, Refusal>
    ensures { Answers (charge_refusal address bit time (memory_in lent.entry)) (charge_answer address bit time (memory_in lent.entry)) result }
{
    let place = cell_place(address, bit);
    let held = lent.opened_at(place, time)?;
    let cell = 8 * usize::from(address) + usize::from(bit);
    Ok(cell_charge(&held, cell, time))
}

// Whether the page of an address is blank at a time.
#[tactic(auto, unfolding(lent::specs::Looked::blank_refusal))]
pub fn see_blank(lent: Lent, address: u16, time: Time) -> Result<bool, Refusal>
    ensures { Answers (blank_refusal address time (memory_in lent.entry)) (blank_at time (chip_in (memory_in lent.entry)) address) result }
{
    let place = address_place(address);
    let held = lent.opened_at(place, time)?;
    Ok(blank_page(&held, usize::from(address), time))
}

// The image at a time, written to the output.
#[tactic(auto, unfolding(lent::specs::Looked::image_refusal))]
pub fn see_image(lent: Lent, time: Time, out: &mut [u8]) -> Result<(), Refusal>
    ensures refused { told result ≡ image_refusal time (length out.old) (memory_in lent.entry) }
    ensures left { out.new ≡ image_left (told result) time (memory_in lent.entry) out.old }
{
    let held = lent.opened_with_room(time, FLASH_SIZE, out.len())?;
    image(&held, time, out);
    Ok(())
}
