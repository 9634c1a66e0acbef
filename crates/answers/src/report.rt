// The lines of the report that the program prints of its work, and the head of its picture. What does not fit is cut off.
ghost use Rattle.answers.specs.Report.{call_lines, pulse_line, page_line, legible_line, verdict_line, picture_head};
ghost use Rattle.text.specs.Says.{Says};

use text::Text;

pub fn calls(text: &mut Text, made: u64, refused: u64)
    ensures { Says (call_lines made refused) text.old text.new }
{
    text.say(b"calls made: %\ncalls refused: %\n", &[made, refused]);
}

pub fn pulses(text: &mut Text, block: u64, completed: u64, interrupted: u64)
    ensures { Says (pulse_line block completed interrupted) text.old text.new }
{
    text.say(
        b"block %: pulses completed %, interrupted %\n",
        &[block, completed, interrupted],
    );
}

pub fn pages(
    text: &mut Text,
    block: u64,
    first_address: u64,
    last_address: u64,
    blank: u64,
    legible: u64,
)
    ensures { Says (page_line block first_address last_address blank legible) text.old text.new }
{
    text.say(
        b"block %, $ to $: % pages blank, % legible\n",
        &[block, first_address, last_address, blank, legible],
    );
}

pub fn legible_page(text: &mut Text, address: u64)
    ensures { Says (legible_line address) text.old text.new }
{
    text.say(b"legible: page $\n", &[address]);
}

pub fn verdict(text: &mut Text, legible: u64)
    ensures { Says (verdict_line legible) text.old text.new }
{
    let template: &[u8] = if legible == 0 {
        b"verdict: blank\n"
    } else {
        b"verdict: legible, % pages\n"
    };
    text.say(template, &[legible]);
}

pub fn picture_head(text: &mut Text)
    ensures { Says picture_head text.old text.new }
{
    text.say(b"P5\n768 512\n255\n", &[]);
}
