// Looking, and a new array: nothing changes but the output, or what is made.
#![tactic(auto, using(crate::proofs::Answered::placed))]

ghost use Rattle.std.specs.Prelude.{◌≡◌, length};
ghost use Rattle.layout.specs.Layout.{record_length};
ghost use Rattle.lent.specs.Memory.{lent, moment};
ghost use Rattle.lent.specs.Looked.{answered, register_refusal, register_answer, normal_refusal, normal_answer, peek_refusal, peek_answer, charge_refusal, charge_answer, blank_refusal, blank_answer, image_refusal, image_left, new_refusal, new_record, new_array};

use layout::RECORD_LEN;
use lent::making::make;
use lent::memory::Lent;
use refusal::{told, told_into};
use see::{see_blank, see_byte, see_charge, see_image, see_normal, see_register};
use time::Time;

// How many bytes a record has.
#[unsafe(no_mangle)]
pub extern "C" fn flash_record_len() -> usize
    ensures { result ≡ record_length }
{
    RECORD_LEN
}

// A new array from firmware; the charge store is only measured.
#[unsafe(no_mangle)]
pub extern "C" fn flash_new(
    firmware: &[u8],
    record: &mut [u8],
    array: &mut [u8],
    charges: &[u64],
) -> u32
    ensures number { result ≡ new_refusal firmware.now (length «record».old) (length array.old) (length charges.now) }
    ensures bytes { «record».new ≡ new_record result «record».old }
    ensures array { array.new ≡ new_array result firmware.now array.old }
{
    told(make(firmware, record, array, charges.len()))
}

// A register as reading shows it.
#[unsafe(no_mangle)]
pub extern "C" fn flash_register(record: &[u8], address: u16, value: &mut u8) -> u32
    ensures number { result ≡ register_refusal «record».now }
    ensures value { value.new ≡ answered result (register_answer «record».now address) value.old }
{
    told_into(see_register(record, address), value)
}

// Whether reading is normal at a time.
#[tactic(auto, using(crate::proofs::Answered::placed), unfolding(lent::specs::Looked::normal_answer))]
#[unsafe(no_mangle)]
pub extern "C" fn flash_normal(record: &[u8], seconds: u64, fraction: u64, normal: &mut u8) -> u32
    ensures number { result ≡ normal_refusal «record».now (moment seconds fraction) }
    ensures normal { normal.new ≡ answered result (normal_answer «record».now (moment seconds fraction)) normal.old }
{
    told_into(see_normal(record, Time(seconds, fraction)), normal)
}

// A byte of the image at a time.
#[unsafe(no_mangle)]
pub extern "C" fn flash_peek(
    record: &[u8],
    array: &[u8],
    charges: &[u64],
    address: u16,
    seconds: u64,
    fraction: u64,
    value: &mut u8,
) -> u32
    ensures number { result ≡ peek_refusal address (moment seconds fraction) (lent «record».now array.now charges.now) }
    ensures value { value.new ≡ answered result (peek_answer address (moment seconds fraction) (lent «record».now array.now charges.now)) value.old }
{
    let lent = Lent {
        record,
        array,
        charges,
    };
    told_into(see_byte(lent, address, Time(seconds, fraction)), value)
}

// The charge of a cell at a time.
#[unsafe(no_mangle)]
pub extern "C" fn flash_cell_charge(
    record: &[u8],
    array: &[u8],
    charges: &[u64],
    address: u16,
    bit: u8,
    seconds: u64,
    fraction: u64,
    charge: &mut u64,
) -> u32
    ensures number { result ≡ charge_refusal address bit (moment seconds fraction) (lent «record».now array.now charges.now) }
    ensures charge { charge.new ≡ answered result (charge_answer address bit (moment seconds fraction) (lent «record».now array.now charges.now)) charge.old }
{
    let lent = Lent {
        record,
        array,
        charges,
    };
    told_into(
        see_charge(lent, address, bit, Time(seconds, fraction)),
        charge,
    )
}

// Whether the page of an address is blank at a time.
#[tactic(auto, using(crate::proofs::Answered::placed), unfolding(lent::specs::Looked::blank_answer))]
#[unsafe(no_mangle)]
pub extern "C" fn flash_blank_page(
    record: &[u8],
    array: &[u8],
    charges: &[u64],
    address: u16,
    seconds: u64,
    fraction: u64,
    blank: &mut u8,
) -> u32
    ensures number { result ≡ blank_refusal address (moment seconds fraction) (lent «record».now array.now charges.now) }
    ensures blank { blank.new ≡ answered result (blank_answer address (moment seconds fraction) (lent «record».now array.now charges.now)) blank.old }
{
    let lent = Lent {
        record,
        array,
        charges,
    };
    told_into(see_blank(lent, address, Time(seconds, fraction)), blank)
}

// The image at a time, at the beginning of the output.
#[unsafe(no_mangle)]
pub extern "C" fn flash_image(
    record: &[u8],
    array: &[u8],
    charges: &[u64],
    seconds: u64,
    fraction: u64,
    out: &mut [u8],
) -> u32
    ensures number { result ≡ image_refusal (moment seconds fraction) (length out.old) (lent «record».now array.now charges.now) }
    ensures out { out.new ≡ image_left result (moment seconds fraction) (lent «record».now array.now charges.now) out.old }
{
    let lent = Lent {
        record,
        array,
        charges,
    };
    told(see_image(lent, Time(seconds, fraction), out))
}
