// The asking half. What does not touch a record is put to the ring.
ghost use Rattle.std.specs.Prelude.{◌≡◌};
ghost use Rattle.memory.specs.SparseMemory.{sparse as sparse_meaning, sparse_sound};

use crate::entries::find;
use crate::sparse::Sparse;
use answer::Refusal;
use sensing::{Asking, Held, State};

impl<'a> Asking for Sparse<'a> {
    ghost meaning = { sparse_meaning };

    ghost sound = { sparse_sound };

    fn channels(&self) -> u8 {
        self.ring.channels
    }

    fn window(&self) -> u64 {
        self.ring.window
    }

    fn next_index(&self) -> u64 {
        self.ring.next
    }

    fn state(&self, index: u64) -> Result<State, Refusal> {
        self.ring.state(index)
    }

    fn reading(&self, index: u64, resource: u8) -> Result<Option<u32>, Refusal> {
        self.ring.reading(index, resource)
    }

    fn record(&self, index: u64, resource: u8) -> Result<Option<Held>, Refusal> {
        self.ring.ask_at(index, resource)?;
        Ok(find(self.places, index, resource))
    }
}
