// Writing a snapshot.
// Lengths are asked for as clauses: each function writes its own stretch of any output, and no two the same one.
#![tactic(auto)]

ghost use Rattle.std.specs.Prelude.{◌≡◌, [], ◌++◌, ℕ, suc, ◌+◌, ◌*◌, ◌<◌, ◌≤◌, length, take};
ghost use Rattle.lists.specs.Lists.{at};
ghost use Rattle.cell.specs.Cell.{pages};
ghost use Rattle.settle.specs.Pages.{opened};
ghost use Rattle.layout.specs.Layout.{option_byte};
ghost use Rattle.flash.specs.Views.{chip_of};
ghost use Rattle.lent.specs.Memory.{chip_in};
ghost use Rattle.lent.specs.Views.{memory_in};
ghost use Rattle.refusal.specs.Refusal.{told, Answers};
ghost use Rattle.borsh.specs.Borsh.{write_all};
ghost use Rattle.snapshot.specs.Snapshot.{charge_page, slot_pages, place_of, state, controls, latched, supplies, instants, pending, state_fields, snapshot_of, snapshot_length};
ghost use Rattle.snapshot.specs.Asked.{write_refusal, written_out};
ghost use Rattle.snapshot.specs.Places.{pages_place, page_at};

use cell::{PAGE, PAGE_CELLS, PAGES};
use coding::state::head_of;
use control::PendingSense;
use flash::Flash;
use flash::held::Held;
use layout::{HEAD_OPTION, HEAD_SUPPLIES};
use lent::memory::Lent;
use refusal::Refusal;
use rows::numbers::Number;
use rows::put_row;
use settle::pages::{opened, slot_in};
use snapshot::{
    CHARGES, COUNT, FIRST_PAGE, LATCH, LATCH_PAGE, PAGE_LEN, PENDING, READY, SENSE_ADDRESS,
    SENSE_END, SENSE_INSTANT, SENSE_LEN, STATE_LEN, SUPPLY, page_at,
};

// The address of the page that has each slot. From the last page down, so that the first page with a slot stays.
fn owners(held: &Held) -> [u16; PAGES]
    ensures { (s : ℕ) → s < opened held.now.flash.indices → at result s ≡ place_of (suc s) held.now.flash.indices * 128 }
{
    let mut found = [0u16; PAGES];
    for (i, entry) in held.flash.indices.iter().enumerate().rev() {
        if let Some(slot) = slot_in(*entry) {
            found[slot] = (i * PAGE) as u16;
        }
    }
    found
}

// The charge pages in slot order, after what stands before them.
fn put_pages(out: &mut [u8], held: &Held, count: usize)
    requires { (count ≡ opened held.now.flash.indices) × (page_at count ≤ length out.old) }
    ensures { take (page_at count) out.new ≡ take pages_place out.old ++ write_all (charge_page []).write (slot_pages count 0 held.now.flash.indices held.now.charges.now) }
{
    let owners = owners(held);
    let (charges, _) = held.charges.as_chunks::<PAGE_CELLS>();
    for slot in 0..count {
        owners[slot].put(out, page_at(slot));
        put_row(out, page_at(slot) + CHARGES, &charges[slot]);
    }
}

// The runs of fields of the state, each after what stands before it.
#[tactic(auto, using(crate::proofs::Runs::rows), unfolding(snapshot::specs::Snapshot::state_fields, layout::specs::Layout::head_of))]
fn put_controls(out: &mut [u8], at: usize, flash: Flash)
    requires { at + 5 ≤ length out.old }
    ensures { take (at + 5) out.new ≡ take at out.old ++ controls.write (state_fields flash).0 }
{
    put_row(out, at, &head_of(flash.registers)[..HEAD_SUPPLIES]);
}

fn put_latched(out: &mut [u8], at: usize, flash: Flash)
    requires { at + 130 ≤ length out.old }
    ensures { take (at + 130) out.new ≡ take at out.old ++ latched.write (state_fields flash).1.0 }
{
    let r = flash.registers;
    put_row(out, at, &r.latch);
    r.page.put(out, at + (LATCH_PAGE - LATCH));
}

#[tactic(auto, using(crate::proofs::Runs::rows), unfolding(snapshot::specs::Snapshot::state_fields, layout::specs::Layout::head_of))]
fn put_supplies(out: &mut [u8], at: usize, flash: Flash)
    requires { at + 4 ≤ length out.old }
    ensures { take (at + 4) out.new ≡ take at out.old ++ supplies.write (state_fields flash).1.1.0 }
{
    put_row(
        out,
        at,
        &head_of(flash.registers)[HEAD_SUPPLIES..HEAD_OPTION],
    );
}

#[tactic(auto, using(crate::proofs::Runs::rows), unfolding(snapshot::specs::Snapshot::state_fields))]
fn put_instants(out: &mut [u8], at: usize, flash: Flash)
    requires { at + 112 ≤ length out.old }
    ensures { take (at + 112) out.new ≡ take at out.old ++ instants.write (state_fields flash).1.1.1.0 }
{
    let r = flash.registers;
    let run = [
        r.ready,
        r.swe_ready,
        r.program_ready,
        r.erase_ready,
        r.recovery,
        flash.pulse_since,
        r.verify_ready,
    ];
    put_row(out, at, &run);
}

// 0, or 1 with address and instant. The answer is the place after it.
fn put_pending(out: &mut [u8], at: usize, sense: Option<PendingSense>) -> usize
    requires { at + 1 + 18 * option_byte sense ≤ length out.old }
    ensures { (result ≡ at + 1 + 18 * option_byte sense) × (take result out.new ≡ take at out.old ++ pending.write sense) }
{
    match sense {
        None => {
            out[at] = 0;
            at + 1
        }
        Some(due) => {
            out[at] = 1;
            due.address.put(out, at + SENSE_ADDRESS);
            due.at.put(out, at + SENSE_INSTANT);
            at + SENSE_END
        }
    }
}

fn put_state(out: &mut [u8], at: usize, flash: Flash)
    requires { at + 256 + 18 * option_byte flash.registers.verify_pending ≤ length out.old }
    ensures { take (at + 256 + 18 * option_byte flash.registers.verify_pending) out.new ≡ take at out.old ++ state.write (state_fields flash) }
{
    put_controls(out, at, flash);
    put_latched(out, at + LATCH, flash);
    put_supplies(out, at + SUPPLY, flash);
    put_instants(out, at + READY, flash);
    let end = put_pending(out, at + PENDING, flash.registers.verify_pending);
    put_row(out, end, &flash.sensed);
}

// How long a snapshot is.
fn snapshot_length(count: usize, sense: Option<PendingSense>) -> usize
    requires { count ≤ pages }
    ensures { result ≡ snapshot_length count sense }
{
    let base = FIRST_PAGE + STATE_LEN + count * PAGE_LEN;
    sense.map_or(base, |_| base + SENSE_LEN)
}

// The snapshot fills the whole of the output.
fn fill(out: &mut [u8], held: &Held, count: usize)
    requires { (count ≡ opened held.now.flash.indices) × (length out.old ≡ snapshot_length count held.now.flash.registers.verify_pending) }
    ensures { out.new ≡ snapshot_of (chip_of held.now) }
{
    put_row(out, 0, held.array);
    let number = count as u32;
    number.put(out, COUNT);
    put_pages(out, held, count);
    put_state(out, page_at(count), held.flash);
}

// The snapshot stands at the beginning of the output, and the answer is its length; what is past it stays.
pub fn write_snapshot(lent: Lent, out: &mut [u8]) -> Result<usize, Refusal>
    ensures answer { Answers (write_refusal (length out.old) (memory_in lent.entry)) (length (snapshot_of (chip_in (memory_in lent.entry)))) result }
    ensures out { out.new ≡ written_out (told result) (memory_in lent.entry) out.old }
{
    let held = lent.opened()?;
    let count = opened(&held.flash.indices);
    let length = snapshot_length(count, held.flash.registers.verify_pending);
    if out.len() < length {
        return Err(Refusal::Output);
    }
    fill(&mut out[0..length], &held, count);
    Ok(length)
}
