// The bytes of a piece are moved to the line, up to the line's end or the piece's.
#![tactic(auto)]

ghost use Rattle.std.specs.Prelude.{◌≡◌, ◌-◌, ◌<◌, ◌||◌, ltb, length};
ghost use Rattle.text.specs.Puts.{Puts};
ghost use Rattle.course.specs.Bounds.{longest};
ghost use Rattle.feeding.specs.Feeding.{Feeds};

use byte_search::find;
use course::LineSoFar;
use course::memory::{Bytes, LONGEST};
use text::Text;

// The line then, the next byte of the piece, and whether the line ended. Each of the two has all of them, so an enum would be no plainer.
#[derive(Clone, Copy)]
pub struct Fed {
    pub line: LineSoFar,
    pub at: usize,
    pub ended: bool,
}

// The bytes go behind those that the line has. What has no room there makes it too long.
fn put(so_far: LineSoFar, bytes: &[u8], line: &mut Bytes) -> LineSoFar
    ensures long_is { result.long ≡ (so_far.long || ltb (longest - so_far.length) (length bytes.now)) }
    ensures put { Puts bytes.now so_far.length line.old line.new result.length }
{
    let before = so_far.length;
    let mut text = Text {
        out: line,
        at: before,
    };
    text.put_text(bytes);
    LineSoFar {
        length: text.at,
        long: so_far.long || LONGEST - before < bytes.len(),
    }
}

// The bytes go to the line up to its end, or up to the piece's.
pub fn feed(so_far: LineSoFar, piece: &[u8], at: usize, line: &mut Bytes) -> Fed
    requires { at < length piece.now }
    ensures { Feeds so_far at piece.now line.old line.new result }
{
    let left = &piece[at..];
    match find(left, b'\n') {
        Some(end) => Fed {
            line: put(so_far, &left[..end], line),
            at: at + end + 1,
            ended: true,
        },
        None => Fed {
            line: put(so_far, left, line),
            at: piece.len(),
            ended: false,
        },
    }
}
