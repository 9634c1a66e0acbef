// Lent memory is opened once: its lengths and its record are tested, and the state that the record holds is read.
ghost use Rattle.std.specs.Prelude.{ℕ, ◌≡◌, ◌<◌, ◌≤◌, IfOk, OnOk};
ghost use Rattle.refusal.specs.Refusal.{told, Answers};
ghost use Rattle.lists.specs.Lists.{at};
ghost use Rattle.layout.specs.Layout.{decoded};
ghost use Rattle.lent.specs.Memory.{misfits};
ghost use Rattle.lent.specs.Looked.{size_refusal, register_refusal, memory_refusal, look_refusal, output_refusal};
ghost use Rattle.lent.specs.Held.{Opened};
ghost use Rattle.lent.specs.Views.{memory_in, Opens};

use crate::checking::{in_time, sizes_misfit};
use crate::memory::Lent;
use checks::accepts;
use coding::read;
use flash::Flash;
use flash::held::Held;
use layout::RECORD_LEN;
use refusal::Refusal;
use time::Time;

// A record of its one length.
pub fn sized_record(record: &[u8]) -> Result<&[u8; RECORD_LEN], Refusal>
    ensures told { told result ≡ size_refusal «record».now }
    ensures same { IfOk result (λ sized. sized.now ≡ «record».now) }
{
    <&[u8; RECORD_LEN]>::try_from(record).map_err(|_| Refusal::Memory)
}

// The state of a record alone: nothing travels with it that a struct could hold. Inlined: called, the state would be copied twice more.
#[inline(always)]
#[tactic(auto, unfolding(crate::specs::Looked::register_refusal))]
pub fn opened_record(record: &[u8]) -> Result<Flash, Refusal>
    ensures told { Answers (register_refusal «record».now) (decoded «record».now) result }
    ensures bytes { OnOk result ((place : ℕ) → at «record».now place < 256) }
{
    let record = sized_record(record)?;
    if !accepts(record) {
        return Err(Refusal::Record);
    }
    Ok(read(record))
}

impl<'a> Lent<'a> {
    // Whether it is of other lengths than its own.
    pub fn misfits(self) -> bool
        ensures { result ≡ misfits (memory_in self.entry) }
    {
        sizes_misfit(self.record.len(), self.array.len(), self.charges.len())
    }

    // The state with the memory, which it fits. Here and below inlined, but for the state alone: called, a look would copy the whole state
    // where it reads a few fields.
    #[inline(always)]
    #[tactic(auto, unfolding(crate::specs::Looked::register_refusal, crate::specs::Looked::memory_refusal))]
    pub fn opened(self) -> Result<Held<'a>, Refusal>
        ensures told { Opens (memory_refusal (memory_in self.entry)) (memory_in self.entry) result }
        ensures opened { IfOk result (λ held. Opened (memory_in self.entry) held.flash) }
    {
        if self.misfits() {
            return Err(Refusal::Memory);
        }
        let flash = opened_record(self.record)?;
        Ok(Held {
            flash,
            array: self.array,
            charges: self.charges,
        })
    }

    // The state alone, for whoever changes the memory.
    pub fn opened_state(self) -> Result<Flash, Refusal>
        ensures told { told result ≡ memory_refusal (memory_in self.entry) }
        ensures opened { IfOk result (λ flash. Opened (memory_in self.entry) flash) }
    {
        Ok(self.opened()?.flash)
    }

    // The state for a look at a time, and at a place that may be refused.
    #[inline(always)]
    #[tactic(auto, using(crate::proofs::Lines::placed_given), unfolding(crate::specs::Memory::time_refusal, crate::specs::Looked::memory_refusal, crate::specs::Looked::sized_refusal))]
    pub fn opened_at(self, place: Result<(), Refusal>, time: Time) -> Result<Held<'a>, Refusal>
        ensures told { Opens (look_refusal (told place) time (memory_in self.entry)) (memory_in self.entry) result }
        ensures placed { OnOk result (told place ≡ 0) }
    {
        let held = self.opened()?;
        place?;
        in_time(&held.flash, time)?;
        Ok(held)
    }

    // The state for a look at a time that needs so many bytes of output and has some room.
    #[inline(always)]
    #[tactic(auto, unfolding(crate::specs::Looked::sized_refusal, crate::specs::Looked::output_refusal))]
    pub fn opened_with_room(
        self,
        time: Time,
        needed: usize,
        room: usize,
    ) -> Result<Held<'a>, Refusal>
        ensures told { Opens (output_refusal needed time room (memory_in self.entry)) (memory_in self.entry) result }
        ensures room { OnOk result (needed ≤ room) }
    {
        let held = self.opened_at(Ok(()), time)?;
        if room < needed {
            return Err(Refusal::Output);
        }
        Ok(held)
    }
}
