// A memory with a place for each record that can be held, and what always holds of it. That it repeats calls to the ring is
// for the reason that stands with the other kind, in sparse.rt.
ghost use Rattle.std.specs.Prelude.{ℕ, ◌+◌, ◌*◌, ◌≤◌, length};
ghost use Rattle.rules.specs.Sensing.{Sound};
ghost use Rattle.memory.specs.DensePlaces.{meant};

use crate::ring::Ring;
use sensing::Held;

mod asks;
mod keeps;
mod makes;

pub use makes::fits;

#[derive(Drop)]
pub struct Dense<'a> {
    ring: Ring<'a>,
    places: &'a mut [Option<Held>],
    ghost deep: { (ring.window + 1) * ring.channels ≤ length places.now },
    ghost sound: { ∥ Sound (meant ring places.now) ∥₁ },
}
