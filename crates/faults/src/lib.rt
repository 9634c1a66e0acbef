// What the program says of a line of a history that it can't take, in words for a reader of the history. The contract says where the text
// ends, and that it stays in the slice; the words themselves are the code's. What does not fit is cut off.
#![tactic(auto, using(text::proofs::Joined::some_text))]

mod missing_words;
mod wrong_words;

ghost use Rattle.text.specs.Says.{SaysSome};

use crate::missing_words::missing;
use crate::wrong_words::wrong;
use text::Text;
use words::reason::Reason;

// The sentence on a word, or on one that is missing, if the word is empty.
fn sentence(text: &mut Text, word: &[u8], reason: Reason)
    ensures { SaysSome text.old text.new }
{
    if word.is_empty() {
        missing(text, reason);
    } else {
        wrong(text, word, reason);
    }
}

// A line that can't be taken, with its place. Where the program goes on, it says that the line is left out.
pub fn fault(
    text: &mut Text,
    line_number: u64,
    column: u64,
    word: &[u8],
    reason: Reason,
    goes_on: bool,
)
    ensures { SaysSome text.old text.new }
{
    text.say(b"line %, column %: ", &[line_number, column]);
    sentence(text, word, reason);
    let ending: &[u8] = if goes_on {
        b"; the line is left out\n"
    } else {
        b"\n"
    };
    text.say(ending, &[]);
}
