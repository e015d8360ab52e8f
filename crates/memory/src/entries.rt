// Records in a plain list of places: each place holds one record with the index and the resource where it was heard, or nothing.
ghost use Rattle.std.specs.Prelude.{◌≡◌, ◌<◌, [], ◌∷◌, length, None, MatchOption, slice_index_or};
ghost use Rattle.memory.specs.EntryPlaces.{find as find_in, used, kept_from, Free, Put, Dropped};

use sensing::Held;

#[derive(Clone, Copy)]
pub struct Entry {
    pub index: u64,
    pub resource: u8,
    pub held: Held,
}

// What a place holds of a resource of an index.
fn held_at(place: Option<Entry>, index: u64, resource: u8) -> Option<Held>
    ensures { result ≡ find_in (place ∷ []) index resource }
{
    match place {
        Some(e) if e.index == index && e.resource == resource => Some(e.held),
        _ => None,
    }
}

// What the places hold at a resource of an index.
pub(crate) fn find(places: &[Option<Entry>], index: u64, resource: u8) -> Option<Held>
    ensures { result ≡ find_in places.now index resource }
{
    places
        .iter()
        .find_map(|place| held_at(*place, index, resource))
}

// The first place that holds nothing.
pub(crate) fn free_place(places: &[Option<Entry>]) -> Option<usize>
    ensures { MatchOption result (used places.now ≡ length places.now) (Free places.now) }
{
    places.iter().position(|place| place.is_none())
}

// Puts an entry into a place that holds nothing, as `free_place` gives one.
pub(crate) fn put(places: &mut [Option<Entry>], at: usize, entry: Entry)
    requires { (at < length places.old) × (slice_index_or places.old at None ≡ None) }
    ensures { Put places.old entry places.new }
{
    places[at] = Some(entry);
}

// Empties a place whose entry is of an index below `low`.
fn empty_below(place: &mut Option<Entry>, low: u64)
    ensures { place.new ≡ kept_from low place.old }
{
    if let Some(e) = *place
        && e.index < low
    {
        *place = None;
    }
}

// Drops the entries of all indices below `low`, and no others.
pub(crate) fn drop_below(places: &mut [Option<Entry>], low: u64)
    ensures { Dropped low places.old places.new }
{
    for place in places.iter_mut() {
        empty_below(place, low);
    }
}
