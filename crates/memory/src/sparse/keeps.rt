// The keeping half.
ghost use Rattle.std.specs.Prelude.{◌≡◌, length, MatchOption};
ghost use Rattle.memory.specs.EntryPlaces.{used, Free};

use crate::entries::{Entry, drop_below, free_place, put};
use crate::sparse::Sparse;
use answer::Refusal;
use sensing::{Keeping, Kept, examine_readings, examine_record, examine_sent};

impl<'a> Sparse<'a> {
    // The first free place.
    fn free(&self) -> Option<usize>
        ensures { MatchOption result (used self.now.places.now ≡ length self.now.places.now) (Free self.now.places.now) }
    {
        free_place(self.places)
    }
}

impl<'a> Keeping for Sparse<'a> {
    fn slide(&mut self, n: u64) -> Result<(), Refusal> {
        if n < self.ring.next {
            return Err(Refusal::Back);
        }
        drop_below(self.places, n - self.ring.window);
        self.ring.slide(n);
        Ok(())
    }

    fn keep_record(
        &mut self,
        index: u64,
        resource: u8,
        bytes: [u8; 4],
        rsrp: i16,
    ) -> Result<Kept, Refusal> {
        let Some(held) = examine_record(self, index, resource, bytes, rsrp)? else {
            return Ok(Kept::Already);
        };
        let Some(at) = self.free() else {
            return Err(Refusal::Full);
        };
        let entry = Entry {
            index,
            resource,
            held,
        };
        put(self.places, at, entry);
        Ok(Kept::New)
    }

    fn keep_readings(&mut self, index: u64, readings: &[u32]) -> Result<Kept, Refusal> {
        let kept = examine_readings(self, index, readings)?;
        if kept == Kept::New {
            self.ring.keep_readings(index, readings);
        }
        Ok(kept)
    }

    fn mark_sent(&mut self, index: u64) -> Result<(), Refusal> {
        examine_sent(self, index)?;
        self.ring.mark_sent(index);
        Ok(())
    }
}
