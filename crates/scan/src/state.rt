// The state that stands whole at a place of a snapshot.
ghost use Rattle.std.specs.Prelude.{◌≡◌, ◌+◌, ◌≤◌, length};
ghost use Rattle.snapshot.specs.Places.{state_length};

use crate::state_length;

// All its bytes are there.
#[derive(Clone, Copy)]
pub struct StateAt<'a> {
    pub bytes: &'a [u8],
    pub at: usize,
    pub ghost whole: { at + state_length bytes.now at ≤ length bytes.now },
}

impl StateAt<'_> {
    // The place after it.
    #[tactic(auto, using(crate::proofs::States::rooms))]
    pub fn end(self) -> usize
        ensures { result ≡ self.entry.at + state_length self.entry.bytes.now self.entry.at }
    {
        self.at + state_length(self.bytes, self.at)
    }
}
