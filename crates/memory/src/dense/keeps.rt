// The keeping half. A slide moves the window on and leaves the rows as they are: a row of an index that is dropped
// speaks for no index any more, and is taken over when something is kept at the index that comes to its place.
ghost use Rattle.std.specs.Prelude.{◌≡◌, ℕ, ◌+◌, ◌*◌, ◌<◌, ◌≤◌, length};
ghost use Rattle.rules.specs.Sensing.{Inside, Added};
ghost use Rattle.sensing.specs.Memories.{held_of};
ghost use Rattle.memory.specs.Rings.{alone, Same};
ghost use Rattle.memory.specs.DensePlaces.{meant, Owned};

use crate::dense::Dense;
use crate::ring::Ring;
use answer::Refusal;
use sensing::{Held, Keeping, Kept, examine_readings, examine_record, examine_sent};

// Makes the row of the index its own, with no record where it was another index's. Nothing that is held changes.
fn claim(ring: &mut Ring, places: &mut [Option<Held>], index: u64)
    requires upto { index ≤ ring.old.next }
    requires deep { (ring.old.window + 1) * ring.old.channels ≤ length places.old }
    ensures size { length places.new ≡ length places.old }
    ensures owned { Owned index ring.old places.old ring.new places.new }
{
    if ring.claim(index) {
        let at = ring.place(index, 0);
        places[at..at + usize::from(ring.channels)].fill(None);
    }
}

// Keeps a record at a resource of the index.
fn put(ring: &mut Ring, places: &mut [Option<Held>], index: u64, resource: u8, held: Held)
    requires inside { Inside (alone ring.old) index }
    requires below { resource < ring.old.channels }
    requires deep { (ring.old.window + 1) * ring.old.channels ≤ length places.old }
    ensures size { length places.new ≡ length places.old }
    ensures same { Same ring.old.next ring.old ring.new }
    ensures done { Added (meant ring.old places.old) index resource (held_of held) (meant ring.new places.new) }
{
    claim(ring, places, index);
    places[ring.place(index, resource)] = Some(held);
}

impl<'a> Keeping for Dense<'a> {
    fn slide(&mut self, n: u64) -> Result<(), Refusal> {
        if n < self.ring.next {
            return Err(Refusal::Back);
        }
        self.ring.slide(n);
        Ok(())
    }

    // It never answers 31: where no record is held at a resource, its place is free.
    fn keep_record(
        &mut self,
        index: u64,
        resource: u8,
        bytes: [u8; 4],
        rsrp: i16,
    ) -> Result<Kept, Refusal> {
        let Some(held) = examine_record(self, index, resource, bytes, rsrp)? else {
            return Ok(Kept::Already);
        };
        put(&mut self.ring, self.places, index, resource, held);
        Ok(Kept::New)
    }

    fn keep_readings(&mut self, index: u64, readings: &[u32]) -> Result<Kept, Refusal> {
        let kept = examine_readings(self, index, readings)?;
        if kept == Kept::New {
            claim(&mut self.ring, self.places, index);
            self.ring.keep_readings(index, readings);
        }
        Ok(kept)
    }

    fn mark_sent(&mut self, index: u64) -> Result<(), Refusal> {
        examine_sent(self, index)?;
        claim(&mut self.ring, self.places, index);
        self.ring.mark_sent(index);
        Ok(())
    }
}
