// The resource pool: its limits as an invariant, configure, and what it answers about subframes.
#![tactic(auto)]

ghost use Rattle.std.specs.Prelude.{◌≡◌, ℕ, ◌%◌, ◌<◌, ◌≤◌, true};
ghost use Rattle.rules.specs.Calendar.{cycle};
ghost use Rattle.rules.specs.Configure.{within};
ghost use Rattle.pool.specs.Meant.{meant};

pub mod calendar;
pub mod configure;
pub mod levels;

// A pool as it is asked for: numbers and bytes, of which nothing is known yet.
#[derive(Clone, Copy)]
pub struct Settings {
    pub channels: u8,
    pub uplink: u8,
    // how many of the three offsets are used; the others are here too, since configure asks whether they are zero
    pub used: u8,
    pub offsets: [u8; 3],
    // the bitmap's length, and its bytes: bit 0 is the highest bit of byte 0
    // all thirteen bytes are here, since configure asks whether the bits past the length are zero
    pub size: u8,
    pub bitmap: [u8; 13],
    // bit c - 1 allows interval code c
    pub intervals: u16,
    pub levels: [u8; 64],
}

// The sync offsets of a pool: three places, and how many of them are used.
// The array has a length beside it, since a pool promises `Copy`, which the kit's `ArrayVec` is not.
#[derive(Clone, Copy)]
struct Offsets {
    used: u8,
    places: [u8; 3],
    ghost few: { used ≤ 3 },
}

// The bitmap of a pool: its length, and its bits in words, bit 0 the highest bit of word 0.
// The length stands beside the words, since it counts bits: 32 of them lie in a word.
#[derive(Clone, Copy)]
struct Bitmap {
    size: u8,
    words: [u32; 4],
}

// A pool that keeps its limits.
#[derive(Clone, Copy)]
pub struct Pool {
    channels: u8,
    uplink: u8,
    offsets: Offsets,
    bitmap: Bitmap,
    intervals: u16,
    levels: [u8; 64],
    ghost limits: { within (meant channels uplink offsets.used offsets.places bitmap.size bitmap.words intervals levels) ≡ true },
    ghost some: { 0 < cycle (meant channels uplink offsets.used offsets.places bitmap.size bitmap.words intervals levels) },
    ghost whole: { cycle (meant channels uplink offsets.used offsets.places bitmap.size bitmap.words intervals levels) % bitmap.size ≡ 0 },
}
