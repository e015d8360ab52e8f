// The list of all candidates, with the raise from which each survives and its mean.
ghost use Rattle.std.specs.Prelude.{◌≡◌, ℕ, ◌+◌, ◌*◌, ◌≤◌, List, [], ◌∷◌, ◌++◌, map, length, count_by, filter};
ghost use Rattle.std.specs.List.{range_with_len};
ghost use Rattle.arrayvec.specs.ArrayVec.{array_vec_len};
ghost use Rattle.choosing.specs.Found.{slots_of};
ghost use Rattle.selecting.specs.Lists.{entry_at, rows_of, free};

use crate::{Entry, Place};
use arrayvec::ArrayVec;
use choosing::{Candidates, Slot};
use measuring::Mean;
use reserving::Need;

// Adds the candidates of one slot.
fn list_slot(
    entries: &mut ArrayVec<Entry, 2000>,
    slot: &Slot,
    width: u8,
    needs: &[Need; 20],
    means: &[Option<Mean>; 20],
)
    requires { (array_vec_len entries.old + width ≤ 2000) × (width ≤ 20) }
    ensures { entries.new.items ≡ entries.old.items ++ map (entry_at slot.now needs.now means.now) (range_with_len 0 width) }
{
    for ((channel, need), mean) in (0..width).zip(needs).zip(means) {
        entries.push(Entry {
            place: Place {
                subframe: slot.subframe,
                index: slot.index,
                channel,
            },
            need: *need,
            mean: *mean,
        });
    }
}

// Adds all candidates to an empty list, in order of index and then sub-channel.
pub(crate) fn list(
    entries: &mut ArrayVec<Entry, 2000>,
    found: &Candidates,
    needs: &[[Need; 20]; 100],
    means: &[[Option<Mean>; 20]; 100],
)
    requires { entries.old.items ≡ [] }
    ensures { entries.new.items ≡ rows_of (slots_of found.now) found.now.width needs.now means.now (length (slots_of found.now)) }
{
    let width = found.width();
    // The arrays have room for the most slots that a question can have, so the zip ends at the last slot.
    for ((slot, needs), means) in found.slots().iter().zip(needs).zip(means) {
        list_slot(entries, slot, width, needs, means);
    }
}

impl Entry {
    // Does it survive at a raise?
    fn survives(&self, raise: u8) -> bool
        ensures { result ≡ free raise self.now }
    {
        self.need.allows(raise)
    }
}

// How many entries survive at a raise.
pub(crate) fn count_free(entries: &[Entry], raise: u8) -> usize
    ensures value { result ≡ count_by (free raise) entries.now }
    ensures few { result ≤ length entries.now }
{
    entries.iter().filter(|e| e.survives(raise)).count()
}

// Keeps the entries that survive at a raise, in their order.
pub(crate) fn keep_free(entries: &mut ArrayVec<Entry, 2000>, raise: u8)
    ensures { entries.new.items ≡ filter (free raise) entries.old.items }
{
    entries.retain(|e| e.survives(raise));
}
