// What was counted: calls, lines left out, and the pulses of each block.
ghost use Rattle.std.specs.Prelude.{◌<◌};
ghost use Rattle.text.specs.Says.{Says};
ghost use Rattle.control.specs.Blocks.{blocks};
ghost use Rattle.summary.specs.Summary.{lines, left_out_line, pulses_in, counts_text};

use crate::series::put_lines;
use answers::report::{calls, pulses};
use control::blocks::BLOCKS;
use settle::tally::Tally;
use text::Text;
use verdict::Counts;

fn put_left_out(text: &mut Text, lines: u64)
    ensures { Says (left_out_line lines) text.old text.new }
{
    if lines != 0 {
        text.say(b"lines left out: %\n", &[lines]);
    }
}

// The pulses of a block.
fn put_pulses_in(text: &mut Text, tally: Tally, block: usize)
    requires { block < blocks }
    ensures { Says (pulses_in tally block) text.old text.new }
{
    pulses(
        text,
        block as u64,
        tally.completed[block],
        tally.interrupted[block],
    );
}

fn put_pulses(text: &mut Text, tally: Tally)
    ensures { Says (lines (pulses_in tally) 0 blocks) text.old text.new }
{
    put_lines(text, BLOCKS, |text, block| {
        put_pulses_in(text, tally, block)
    });
}

pub fn put_counts(text: &mut Text, counts: Counts)
    ensures { Says (counts_text counts) text.old text.new }
{
    calls(text, counts.made, counts.refused);
    put_left_out(text, counts.left_out);
    put_pulses(text, counts.tally);
}
