// What is judged, and the verdict on it.
ghost use Rattle.std.specs.Prelude.{◌≡◌, ◌+◌, ◌<◌, ◌≤◌};
ghost use Rattle.cell.specs.Cell.{pages};
ghost use Rattle.text.specs.Says.{Says};
ghost use Rattle.summary.specs.Summary.{address_line, only_line, legible_among, judged_text};
ghost use Rattle.summary.specs.Summary.{lies as Summary·lies};

use crate::Judged;
use answers::report::verdict as verdict_line;
use cell::{PAGE, PAGES};
use flash::PageState;
use text::Text;
use verdict::states::count_in;

// Whether the judged pages lie in the flash.
fn lies(judged: Judged) -> bool
    ensures { result ≡ Summary·lies judged }
{
    judged.first <= PAGES && judged.pages <= PAGES - judged.first
}

// The first and the last address of the judged pages.
fn put_addresses(text: &mut Text, judged: Judged)
    requires { (0 < judged.pages) × (judged.first + judged.pages ≤ pages) }
    ensures { Says (address_line judged) text.old text.new }
{
    let from = judged.first * PAGE;
    let end = (judged.first + judged.pages) * PAGE;
    text.say(b"only $ to $ is judged\n", &[from as u64, (end - 1) as u64]);
}

// The same where some of the pages are judged and not all.
fn put_only(text: &mut Text, judged: Judged)
    ensures { Says (only_line judged) text.old text.new }
{
    let pages = judged.pages;
    if pages != PAGES && pages != 0 && lies(judged) {
        put_addresses(text, judged);
    }
}

// How many of the judged pages are legible. Where they do not lie in the flash all of them count, so that nothing is called blank unseen.
#[tactic(auto, unfolding(crate::specs::Summary::legible_among))]
pub fn legible_among(states: &[PageState; PAGES], judged: Judged) -> usize
    ensures { result ≡ legible_among states.now judged }
{
    if lies(judged) {
        count_in(states, judged.first, judged.pages, PageState::Legible)
    } else {
        judged.pages
    }
}

pub fn put_judged(text: &mut Text, states: &[PageState; PAGES], judged: Judged)
    ensures { Says (judged_text states.now judged) text.old text.new }
{
    put_only(text, judged);
    let legible = legible_among(states, judged);
    verdict_line(text, legible as u64);
}
