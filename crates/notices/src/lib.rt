// What the program says of its options and files where it can't begin, each with the offending word where there is one.
#![tactic(auto)]

ghost use Rattle.std.specs.Prelude.{◌≡◌};
ghost use Rattle.notices.specs.Notices.{template, word_in, told, file_template, file_told, image_length};
ghost use Rattle.text.specs.Says.{Says};

use options::Trouble;
use text::Text;

pub mod help;

// What can't be done with a file.
#[derive(Clone, Copy, Debug, PartialEq, Eq)]
pub enum FileTrouble {
    NotOpened,
    NotRead,
    NotWritten,
}

// The sentence on each trouble with the arguments, with @ for the word that it lies in.
fn template(trouble: Trouble<'_>) -> &'static [u8]
    ensures { result.now ≡ template trouble.entry }
{
    match trouble {
        Trouble::NoSuchOption(_) => b"wipe: there is no option @ (see wipe --help)\n",
        Trouble::NothingAfter(_) => b"wipe: @ wants a word after it\n",
        Trouble::NoBlock(_) => b"wipe: @ is not a block: 0 to 5\n",
        Trouble::NoAddress(_) => b"wipe: @ is no address: four hexadecimal digits below C000\n",
        Trouble::NoTime(_) => b"wipe: @ is no time\n",
        Trouble::NoHistory => b"wipe: no history is named (see wipe --help)\n",
        Trouble::TwoHistories(_) => b"wipe: more than one history is named: @\n",
        Trouble::ImageAndRestore => b"wipe: --image and --restore exclude each other\n",
        Trouble::BlockAndAddresses => b"wipe: --block and --from/--to exclude each other\n",
        Trouble::HalfARange => b"wipe: --from and --to want each other\n",
        Trouble::FromAfterTo => b"wipe: --from comes after --to\n",
        Trouble::Twice(_) => b"wipe: @ is given twice\n",
    }
}

// The word that it lies in, and none where it lies in no one word.
fn word_in(trouble: Trouble<'_>) -> &[u8]
    ensures { result.now ≡ word_in trouble.entry }
{
    match trouble {
        Trouble::NoSuchOption(word)
        | Trouble::NothingAfter(word)
        | Trouble::NoBlock(word)
        | Trouble::NoAddress(word)
        | Trouble::NoTime(word)
        | Trouble::TwoHistories(word)
        | Trouble::Twice(word) => word,
        Trouble::NoHistory
        | Trouble::ImageAndRestore
        | Trouble::BlockAndAddresses
        | Trouble::HalfARange
        | Trouble::FromAfterTo => b"",
    }
}

// Says what is wrong with the arguments.
pub fn trouble(text: &mut Text, trouble: Trouble)
    ensures { Says (told trouble.entry) text.old text.new }
{
    text.say_word(template(trouble), word_in(trouble));
}

pub fn image_length(text: &mut Text, word: &[u8], size: u64)
    ensures { Says (image_length word.now size) text.old text.new }
{
    text.fill(b"wipe: @ has % bytes; an image has 49152\n", word, &[size]);
}

// The sentence on each trouble with a file, with @ for its path.
fn file_template(trouble: FileTrouble) -> &'static [u8]
    ensures { result.now ≡ file_template trouble }
{
    match trouble {
        FileTrouble::NotOpened => b"wipe: @ could not be opened\n",
        FileTrouble::NotRead => b"wipe: @ could not be read\n",
        FileTrouble::NotWritten => b"wipe: @ could not be written\n",
    }
}

// Says what is wrong with a file.
pub fn file_trouble(text: &mut Text, trouble: FileTrouble, path: &[u8])
    ensures { Says (file_told trouble path.now) text.old text.new }
{
    text.say_word(file_template(trouble), path);
}
