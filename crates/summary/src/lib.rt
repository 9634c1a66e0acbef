// The report of a run, put together in a lent slice. What does not fit is cut off at the slice's end, so no function asks for room.
#![tactic(auto)]

ghost use Rattle.std.specs.Prelude.{◌≡◌, false, option_copied};
ghost use Rattle.lent.specs.Memory.{chip_in};
ghost use Rattle.lent.specs.Looked.{look_refusal};
ghost use Rattle.lent.specs.Views.{memory_in};
ghost use Rattle.text.specs.Says.{Says};
ghost use Rattle.summary.specs.Summary.{summary_text};
ghost use Rattle.summary.specs.Reported.{report_text, Reports};

use crate::counting::put_counts;
use crate::judging::put_judged;
use crate::mapping::put_map;
use crate::paging::put_pages;
use cell::PAGES;
use control::Range;
use flash::PageState;
use lent::memory::Lent;
use look::states::page_states;
use picture::marks::marks;
use refusal::Refusal;
use text::Text;
use time::Time;
use verdict::Counts;

pub mod counting;
pub mod judging;
pub mod mapping;
pub mod paging;
mod series;

// The pages that the verdict is on: so many from a first one on. No `control::Range`, whose 16 bits would ask more of a caller: the report
// takes any numbers.
#[derive(Clone, Copy)]
pub struct Judged {
    pub first: usize,
    pub pages: usize,
}

impl From<Range> for Judged {
    ghost from_gives = { λ range judged. (judged.first ≡ range.first) × (judged.pages ≡ range.pages) };

    fn from(range: Range) -> Judged {
        Judged {
            first: usize::from(range.first),
            pages: usize::from(range.pages),
        }
    }
}

// The report from what was counted, the states of the pages, and the map's marks where the map is asked for.
pub fn summary(
    text: &mut Text,
    counts: Counts,
    states: &[PageState; PAGES],
    marks: Option<&[u8; PAGES]>,
    judged: Judged,
)
    ensures { Says (summary_text counts states.now (option_copied marks.entry) judged) text.old text.new }
{
    put_counts(text, counts);
    put_pages(text, states);
    put_map(text, marks);
    put_judged(text, states, judged);
}

// The report on lent memory at a time: where its text ends.
pub fn report(
    out: &mut [u8],
    counts: Counts,
    judged: Judged,
    map: bool,
    lent: Lent,
    time: Time,
) -> Result<usize, Refusal>
    ensures { Reports (look_refusal 0 time (memory_in lent.entry)) (report_text counts judged map time (chip_in (memory_in lent.entry))) out.old out.new result }
{
    let held = lent.opened_at(Ok(()), time)?;
    let states = page_states(&held, time);
    let marks = if map {
        Some(marks(&held, time, &states))
    } else {
        None
    };
    let mut text = Text::new(out);
    summary(&mut text, counts, &states, marks.as_ref(), judged);
    Ok(text.at)
}
