// The three kinds of look: what is seen is put at the start of a slice, and on a refusal nothing is.
ghost use Rattle.refusal.specs.Refusal.{Answers};
ghost use Rattle.cell.specs.Cell.{pages};
ghost use Rattle.flash.specs.Looking.{page_states};
ghost use Rattle.lent.specs.Memory.{chip_in};
ghost use Rattle.lent.specs.Looked.{look_refusal};
ghost use Rattle.lent.specs.Views.{memory_in};
ghost use Rattle.verdict.specs.States.{count_in};
ghost use Rattle.voices.specs.Looks.{Looks};

use answers::{looked_byte, looked_cell, looked_whole};
use cell::{PAGE, PAGES};
use flash::PageState;
use grammar::Looking;
use lent::checking::address_place;
use lent::memory::Lent;
use look::imaging::peek;
use look::states::{page_state, page_states};
use refusal::Refusal;
use see::see_charge;
use text::Text;
use time::Time;
use verdict::states::count_in;

// How many pages are legible.
fn see_pages(lent: Lent, time: Time) -> Result<u64, Refusal>
    ensures { Answers (look_refusal 0 time (memory_in lent.entry)) (count_in PageState.Legible (page_states time (chip_in (memory_in lent.entry))) 0 pages) result }
{
    let held = lent.opened_at(Ok(()), time)?;
    let states = page_states(&held, time);
    Ok(count_in(&states, 0, PAGES, PageState::Legible) as u64)
}

fn look_at_all(lent: Lent, line: u64, time: Time, out: &mut [u8]) -> Result<usize, Refusal>
    ensures { Looks line Looking.Whole time (memory_in lent.entry) result out.old out.new }
{
    let legible = see_pages(lent, time)?;
    let mut text = Text::new(out);
    looked_whole(&mut text, line, legible);
    Ok(text.at)
}

#[tactic(auto, unfolding(lent::specs::Looked::peek_refusal))]
fn look_at_byte(
    lent: Lent,
    line: u64,
    time: Time,
    address: u16,
    out: &mut [u8],
) -> Result<usize, Refusal>
    ensures { Looks line (Looking.Byte address) time (memory_in lent.entry) result out.old out.new }
{
    let held = lent.opened_at(address_place(address), time)?;
    let value = peek(&held, usize::from(address), time);
    let state = page_state(&held, usize::from(address) / PAGE, time);
    let mut text = Text::new(out);
    looked_byte(&mut text, line, u64::from(address), u64::from(value), state);
    Ok(text.at)
}

#[tactic(auto, unfolding(lent::specs::Looked::charge_answer))]
fn look_at_cell(
    lent: Lent,
    line: u64,
    time: Time,
    address: u16,
    bit: u8,
    out: &mut [u8],
) -> Result<usize, Refusal>
    ensures { Looks line (Looking.Cell address bit) time (memory_in lent.entry) result out.old out.new }
{
    let charge = see_charge(lent, address, bit, time)?;
    let mut text = Text::new(out);
    looked_cell(&mut text, line, u64::from(address), u64::from(bit), charge);
    Ok(text.at)
}

// Any look: where the text of what is seen ends, or why it is refused.
pub fn look_at(
    lent: Lent,
    line: u64,
    time: Time,
    looking: Looking,
    out: &mut [u8],
) -> Result<usize, Refusal>
    ensures { Looks line looking time (memory_in lent.entry) result out.old out.new }
{
    match looking {
        Looking::Whole => look_at_all(lent, line, time, out),
        Looking::Byte(a) => look_at_byte(lent, line, time, a, out),
        Looking::Cell(a, bit) => look_at_cell(lent, line, time, a, bit, out),
    }
}
