// The help of the program.
ghost use Rattle.text.specs.Says.{SaysSome};

use text::Text;

// Puts the help: the usage, what each option does, what is printed, the exit status, and where the format of a history is described.
#[tactic(auto, using(text::proofs::Joined::some_text))]
pub fn help(text: &mut Text)
    ensures { SaysSome text.old text.new }
{
    text.put_text(
        b"usage: wipe [--image FILE | --restore FILE] [--block N | --from ADDR --to ADDR] [--at TIME]\n\
          \x20           [--events] [--map] [--picture FILE] [--snapshot FILE] [--go-on] HISTORY\n\
          \n\
          Runs the calls of a history on the model of the flash, and says whether anything is legible.\n\
          \n\
          \x20 --image FILE     begin with this image, 49152 bytes; without it every byte is FF\n\
          \x20 --restore FILE   begin with this snapshot\n\
          \x20 --block N        judge block N alone, 0 to 5\n\
          \x20 --from ADDR      judge the pages from this address on, four hexadecimal digits below C000,\n\
          \x20 --to ADDR        up to this address\n\
          \x20 --at TIME        judge at this time, not at that of the last call\n\
          \x20 --events         tell each byte that changes, each pulse that ends, and what each read gives\n\
          \x20 --map            draw the 384 pages as a map\n\
          \x20 --picture FILE   write a picture of all cells by charge, 768 by 512, in the format PGM\n\
          \x20 --snapshot FILE  write the state that is reached\n\
          \x20 --go-on          leave out what can't be taken, and go on\n\
          \n\
          It prints what the looks of the history see, how many calls were made and refused, for each block\n\
          the pulses that ended and the pages that are blank and legible, and last the verdict.\n\
          \n\
          Exit status of ./wipe: 0 blank, 1 legible, 2 error.\n\
          How a history is written: docs/HISTORY-FORMAT.md.\n",
    );
}
