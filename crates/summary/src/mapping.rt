// The map of the pages: 12 rows of 32 marks, each with its first address.
ghost use Rattle.std.specs.Prelude.{◌<◌, option_copied};
ghost use Rattle.text.specs.Says.{Says};
ghost use Rattle.summary.specs.Summary.{lines, map_rows, map_row, map_text};

use crate::series::put_lines;
use cell::{PAGE, PAGES};
use text::Text;

// Rows of the map, and pages of a row.
const ROWS: usize = 12;

const ROW: usize = 32;

fn put_row(text: &mut Text, marks: &[u8; PAGES], row: usize)
    requires { row < map_rows }
    ensures { Says (map_row marks.now row) text.old text.new }
{
    let from = row * ROW;
    text.fill(b"$ @\n", &marks[from..from + ROW], &[(from * PAGE) as u64]);
}

fn put_rows(text: &mut Text, marks: &[u8; PAGES])
    ensures { Says (lines (map_row marks.now) 0 map_rows) text.old text.new }
{
    put_lines(text, ROWS, |text, row| put_row(text, marks, row));
}

// The map, where there are marks.
#[tactic(auto, unfolding(crate::specs::Summary::map_text))]
pub fn put_map(text: &mut Text, marks: Option<&[u8; PAGES]>)
    ensures { Says (map_text (option_copied marks.entry)) text.old text.new }
{
    if let Some(marks) = marks {
        text.say(
            b"map: . blank, + reads FF with charge left, # legible\n",
            &[],
        );
        put_rows(text, marks);
    }
}
