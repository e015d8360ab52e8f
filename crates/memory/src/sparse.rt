// A memory with a list of records, each in the first place that was free, and what always holds of it. It repeats the
// calls to the ring that a dense memory makes, eight functions of a line or a few: one type over a trait of places would state
// by laws where a record lies, what a slide drops, what a row that is taken over clears, and when no place is free.
ghost use Rattle.std.specs.Prelude.{◌≡◌, ℕ, ◌-◌, true};
ghost use Rattle.rules.specs.Sensing.{Sound};
ghost use Rattle.memory.specs.EntryPlaces.{apart, live};
ghost use Rattle.memory.specs.SparseParts.{meant};

use crate::entries::Entry;
use crate::ring::Ring;

mod asks;
mod keeps;
mod makes;

pub use makes::fits;

#[derive(Drop)]
pub struct Sparse<'a> {
    ring: Ring<'a>,
    places: &'a mut [Option<Entry>],
    ghost keys: { apart places.now ≡ true },
    ghost lives: { live ring.channels (ring.next - ring.window) ring.next places.now ≡ true },
    ghost sound: { ∥ Sound (meant ring places.now) ∥₁ },
}
