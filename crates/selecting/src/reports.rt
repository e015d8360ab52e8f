// The report of a selection.
ghost use Rattle.std.specs.Prelude.{◌≡◌, ℕ, ◌+◌, ◌*◌, ◌≤◌, true, List, [], ◌∷◌, ◌++◌, map, length, take};
ghost use Rattle.std.specs.List.Sorted.{IsPermutation};
ghost use Rattle.arrayvec.specs.ArrayVec.{array_vec_len};
ghost use Rattle.rules.specs.Ranks.{rising};
ghost use Rattle.selecting.specs.Entries.{reported, sooner, before};
ghost use Rattle.selecting.specs.Lifts.{leaves};
ghost use Rattle.selecting.specs.Made.{Of, Ranked};

use crate::lists::keep_free;
use crate::ranks::rank;
use crate::{Entry, Place, Report};
use arrayvec::ArrayVec;
use choosing::Question;

// The places of entries, in order of index and then sub-channel.
fn places_of(entries: &[Entry]) -> ArrayVec<Place, 400>
    requires { length entries.now ≤ 400 }
    ensures shuffled { IsPermutation (map reported entries.now) result.items }
    ensures ordered { rising sooner result.items ≡ true }
{
    let mut places = ArrayVec::new();
    for e in entries {
        places.push(e.place);
    }
    sort_places(&mut places);
    places
}

// Puts places in order of index and then sub-channel.
fn sort_places(places: &mut [Place])
    ensures shuffled { IsPermutation places.old places.new }
    ensures ordered { rising sooner places.new ≡ true }
{
    places.sort_unstable();
}

// The same places once more.
fn copy_of(places: &[Place]) -> ArrayVec<Place, 400>
    requires { length places.now ≤ 400 }
    ensures { result.items ≡ places.now }
{
    ArrayVec::try_from(places).unwrap()
}

// A report of entries, with every place marked.
fn report_of(entries: &[Entry], raise: u8, question: Question, apart: u32) -> Report
    requires { (length entries.now ≤ 400) × (raise ≤ 43) }
    ensures { Of entries.now raise question apart result }
{
    let places = places_of(entries);
    Report {
        marked: copy_of(&places),
        places,
        raise,
        question,
        apart,
    }
}

// Puts the entries in the order of choosing.
fn rank_all(entries: &mut [Entry])
    ensures shuffled { IsPermutation entries.old entries.new }
    ensures ordered { rising before entries.new ≡ true }
{
    entries.sort_unstable_by(rank);
}

// Reports the first fifth, in the order of choosing, of the entries that survive at a raise. The raise leaves so many.
pub(crate) fn report(
    entries: &mut ArrayVec<Entry, 2000>,
    raise: u8,
    question: Question,
    apart: u32,
) -> Report
    requires { (raise ≤ 43) × (leaves entries.old.items raise ≡ true) }
    ensures { Ranked entries.old.items raise question apart result }
{
    let size = entries.len().div_ceil(5);
    keep_free(entries, raise);
    rank_all(entries);
    report_of(&entries[..size], raise, question, apart)
}
