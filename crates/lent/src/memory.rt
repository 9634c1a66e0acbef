// Memory as a host lends it.

// Lent to be read: the record, the stored array and the charge store.
#[derive(Clone, Copy)]
pub struct Lent<'a> {
    pub record: &'a [u8],
    pub array: &'a [u8],
    pub charges: &'a [u64],
}

// Lent to be changed.
#[derive(Drop)]
pub struct LentMut<'a> {
    pub record: &'a mut [u8],
    pub array: &'a mut [u8],
    pub charges: &'a mut [u64],
}

impl LentMut<'_> {
    ghost use Rattle.std.specs.Prelude.{◌≡◌};
    ghost use Rattle.lent.specs.Views.{memory_in, memory_at};

    // The same to be read.
    pub fn seen(&self) -> Lent<'_>
        ensures { memory_in result ≡ memory_at self.now }
    {
        Lent {
            record: &*self.record,
            array: &*self.array,
            charges: &*self.charges,
        }
    }
}
