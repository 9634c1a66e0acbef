// The answers of reads and looks in words, each with the number of its line. What does not fit is cut off.
#![tactic(auto)]

pub mod report;

ghost use Rattle.text.specs.Says.{Says};
ghost use Rattle.answers.specs.Answers.{answer_said, byte_said, cell_said, whole_said};

use cell::{FULL, PAGES};
use flash::PageState;
use text::Text;

// The answer of a byte read or a word read.
pub fn answered(text: &mut Text, line_number: u64, address: u64, value: u64, is_word: bool)
    ensures { Says (answer_said line_number address value is_word) text.old text.new }
{
    let template: &[u8] = if is_word {
        b"line %: the word at $ is $\n"
    } else {
        b"line %: the read of $ gives &\n"
    };
    text.say(template, &[line_number, address, value]);
}

// A look at a byte, and the state of its page.
pub fn looked_byte(text: &mut Text, line_number: u64, address: u64, value: u64, state: PageState)
    ensures { Says (byte_said line_number address value state) text.old text.new }
{
    let template: &[u8] = match state {
        PageState::Blank => b"line %: $ reads &, its page is blank\n",
        PageState::Legible => b"line %: $ reads &, its page is legible\n",
    };
    text.say(template, &[line_number, address, value]);
}

// A look at a cell.
pub fn looked_cell(text: &mut Text, line_number: u64, address: u64, bit: u64, charge: u64)
    ensures { Says (cell_said line_number address bit charge) text.old text.new }
{
    text.say(
        b"line %: the cell at $ bit % holds % of %\n",
        &[line_number, address, bit, charge, FULL],
    );
}

// A look at the whole array.
pub fn looked_whole(text: &mut Text, line_number: u64, legible: u64)
    ensures { Says (whole_said line_number legible) text.old text.new }
{
    let template: &[u8] = if legible == 0 {
        b"line %: every page is blank\n"
    } else {
        b"line %: % of % pages are legible\n"
    };
    text.say(template, &[line_number, legible, PAGES as u64]);
}
