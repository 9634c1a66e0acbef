// A run over a file.
ghost use Rattle.std.specs.Prelude.{◌≡◌, ◌≤◌, false};
ghost use Rattle.session.specs.Pieces.{piece_bytes};

use course::{Course, Place};

// How many bytes the piece has, and whether the file may have more. Once it has no more, its last piece is passed, and when calls are run
// no more, none waits. `have` stands here and not with the piece, since definitions go by a run, a value that is copied, and a piece is
// memory.
#[derive(Clone, Copy)]
pub struct Run {
    pub course: Course,
    pub place: Place,
    pub have: usize,
    pub more: bool,
    pub ghost inside: { place.at ≤ have },
    pub ghost fits: { have ≤ piece_bytes },
    pub ghost passed: { more ≡ false → place.at ≡ have },
    pub ghost none_left: { more ≡ false → place.running ≡ false → place.waiting ≡ 0 },
}
