// Selecting: the fewest raises, the order of the survivors, and the report.
#![tactic(auto)]

ghost use Rattle.std.specs.Prelude.{◌≡◌, ℕ, ◌≤◌, true, length};
ghost use Rattle.rules.specs.Ranks.{rising};
ghost use Rattle.selecting.specs.Entries.{sooner, SomeOf};

pub mod chooses;
mod lists;
pub mod marks;
pub mod raises;
pub mod ranks;
mod reports;

use arrayvec::ArrayVec;
use choosing::Question;
use measuring::Mean;
use reserving::Need;

// A place of a report: a subframe with its index, and the first sub-channel.
#[derive(Clone, Copy, Default)]
pub struct Place {
    pub subframe: u64,
    pub index: u64,
    pub channel: u8,
}

// A candidate as it is ranked: where it lies, the raise from which it survives, and its mean.
#[derive(Clone, Copy)]
pub(crate) struct Entry {
    place: Place,
    need: Need,
    mean: Option<Mean>,
}

// What fills a list of candidates past its last one. It is all zeros, so that a list is made at once and not moved about.
impl Default for Entry {
    fn default() -> Entry {
        Entry {
            place: Place::default(),
            need: Need::From(0),
            mean: None,
        }
    }
}

// How often the thresholds were lifted, while one selection works. It is zero between selections.
#[derive(Drop)]
pub struct Raise {
    steps: u8,
}

// What a selection gives: places in order of index and then sub-channel, those of them that are still marked, the raise, and
// the question that was asked with the distance between its turns.
#[derive(Drop)]
pub struct Report {
    places: ArrayVec<Place, 400>,
    marked: ArrayVec<Place, 400>,
    raise: u8,
    question: Question,
    apart: u32,
    ghost few: { length places.items ≤ 400 },
    ghost lifted: { raise ≤ 43 },
    ghost ordered: { rising sooner places.items ≡ true },
    ghost some: { ∥ SomeOf marked.items places.items ∥₁ },
}
