// The lines of document 01's table of refusals, one test each.
ghost use Rattle.std.specs.Prelude.{◌≡◌, IfOk};
ghost use Rattle.refusal.specs.Refusal.{told};
ghost use Rattle.lent.specs.Memory.{sizes_misfit, past_end, time_refusal, too_few_words};
ghost use Rattle.lent.specs.Asked.{misplaced, call_place, call_refusal};
ghost use Rattle.lent.specs.Looked.{address_place, cell_place};

use crate::{Asking, Request};
use calling::settles;
use cell::{CELLS, FLASH_SIZE, PAGE};
use control::supplies::LAST_MODE;
use flash::Flash;
use layout::RECORD_LEN;
use refusal::Refusal;
use registers::{Call, Pulse};
use time::Time;
use time::accepted::Accepted;

// Whether lent memory has not its lengths.
pub fn sizes_misfit(record: usize, array: usize, charges: usize) -> bool
    ensures { result ≡ sizes_misfit «record» array charges }
{
    (record != RECORD_LEN) | (array != FLASH_SIZE) | (charges != CELLS)
}

// Whether an address lies past the array's end.
fn past_end(address: u16) -> bool
    ensures { result ≡ past_end address }
{
    FLASH_SIZE <= usize::from(address)
}

// The place line of a look at an address.
pub fn address_place(address: u16) -> Result<(), Refusal>
    ensures { told result ≡ address_place address }
{
    if past_end(address) {
        return Err(Refusal::Place);
    }
    Ok(())
}

// That of a look at a cell.
pub fn cell_place(address: u16, bit: u8) -> Result<(), Refusal>
    ensures { told result ≡ cell_place address bit }
{
    if past_end(address) | (7 < bit) {
        return Err(Refusal::Place);
    }
    Ok(())
}

fn misplaced(request: Request) -> bool
    ensures { result ≡ misplaced request }
{
    match request {
        Request::Write8(a, _) | Request::Read8(a) => past_end(a),
        Request::Read16(a) => FLASH_SIZE <= usize::from(a) + 1,
        Request::Environment(mode, _, _) => LAST_MODE < mode,
        _ => false,
    }
}

// The place line of a call: its address, or its mode.
fn call_place(request: Request) -> Result<(), Refusal>
    ensures { told result ≡ call_place request }
{
    if misplaced(request) {
        return Err(Refusal::Place);
    }
    Ok(())
}

fn too_few_words(pulse: Option<Pulse>, words: usize) -> bool
    ensures { result ≡ too_few_words pulse words }
{
    pulse.is_some_and(|p| {
        let range = usize::from(p.pages) * PAGE;
        (0 < range) & (words <= range)
    })
}

// Whether a time is one at which a state can be called or looked at: not in the last second, nor before the last settling.
#[tactic(auto, unfolding(crate::specs::Memory::time_refusal))]
pub fn in_time(flash: &Flash, time: Time) -> Result<Accepted, Refusal>
    ensures told { told result ≡ time_refusal time flash.now }
    ensures asked { IfOk result (λ now. now.time ≡ time) }
{
    let now = time.accepted().ok_or(Refusal::LastSecond)?;
    if time.earlier(flash.pulse_since) {
        return Err(Refusal::TooEarly);
    }
    Ok(now)
}

// Whether a call on a state that was read is refused, by the lines from 4 on.
#[tactic(auto, using(crate::proofs::Lines::placed_given), unfolding(crate::specs::Memory::time_refusal, crate::specs::Asked::call_refusal))]
pub fn call_refusal(flash: Flash, asking: Asking, words: usize) -> Result<Accepted, Refusal>
    ensures told { told result ≡ call_refusal asking.request asking.time words flash }
    ensures asked { IfOk result (λ now. now.time ≡ asking.time) }
{
    let Asking { request, time } = asking;
    call_place(request)?;
    let now = in_time(&flash, time)?;
    let registers = flash.registers;
    if settles(registers, Call::from(request), time) & too_few_words(registers.pulse(), words) {
        return Err(Refusal::Events);
    }
    Ok(now)
}
