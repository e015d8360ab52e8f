// Lifting the needs of candidates that the records of a memory reserve.
ghost use Rattle.std.specs.Prelude.{◌≡◌, ◌-◌, ◌^◌, ◌<◌, ◌≤◌, true};
ghost use Rattle.rules.specs.Sensing.{Inside, rsrp_ok};
ghost use Rattle.sensing.specs.Memories.{held_of};
ghost use Rattle.choosing.specs.Searches.{pool_of, asked, slots};
ghost use Rattle.reserving.specs.Lifts.{Lifted, by_held, by_resource, by_index, by_window};

use crate::Need;
use crate::freed::freed_at;
use crate::lifts::lift_base;
use choosing::Search;
use choosing::turns::repeats;
use sensing::{Asking, Held};

// A walk over the window of a memory, for a search.
#[derive(Drop)]
pub(crate) struct Walk<'a, M: Asking> {
    pub memory: &'a M,
    pub search: Search<'a>,
    ghost early: { (M.meaning memory.now).next ≤ 2 ^ 63 },
    ghost priority: { search.question.now.priority ≤ 7 },
}

impl<M: Asking> Walk<'_, M> {
    // Lifts the candidates that a record reserves, which was heard at a resource of an index. Each call has an index of its own,
    // so that it lies inside is asked here and below, and not of a type.
    fn lift_held(&self, rows: &mut [[Need; 20]; 100], held: &Held, z: u64, resource: u8)
        requires inside { Inside (M.meaning self.now.memory.now) z }
        requires priority { held.now.what.priority ≤ 7 }
        requires rsrp { rsrp_ok held.now.rsrp ≡ true }
        ensures { Lifted (slots self.now.search) (by_held (pool_of self.now.search) (asked self.now.search) ((M.meaning self.now.memory.now).next - z) z resource (held_of held.now)) rows.old rows.new }
    {
        let search = &self.search;
        let what = &held.what;
        let Some(level) = search.pool.level(search.question.priority, what.priority) else {
            return;
        };
        let need = freed_at(level, held.rsrp);
        if need == Need::From(0) {
            return;
        }
        let d = u64::from(search.pool.distance(what.code));
        let g = self.memory.next_index() - z;
        for k in 0..=repeats(search.pool, what.code, g) {
            lift_base(rows, search, what, resource, z + k * d, need);
        }
    }

    // Lifts the candidates that what is held at a resource of an index reserves.
    fn lift_resource(&self, rows: &mut [[Need; 20]; 100], z: u64, resource: u8)
        requires inside { Inside (M.meaning self.now.memory.now) z }
        requires below { resource < (M.meaning self.now.memory.now).channels }
        ensures { Lifted (slots self.now.search) (by_resource (pool_of self.now.search) (M.meaning self.now.memory.now) (asked self.now.search) z resource) rows.old rows.new }
    {
        let Ok(Some(held)) = self.memory.record(z, resource) else {
            return;
        };
        self.lift_held(rows, &held, z, resource);
    }

    // The same for all resources of an index.
    fn lift_index(&self, rows: &mut [[Need; 20]; 100], z: u64)
        requires { Inside (M.meaning self.now.memory.now) z }
        ensures { Lifted (slots self.now.search) (by_index (pool_of self.now.search) (M.meaning self.now.memory.now) (asked self.now.search) (M.meaning self.now.memory.now).channels z) rows.old rows.new }
    {
        for resource in 0..self.memory.channels() {
            self.lift_resource(rows, z, resource);
        }
    }

    // The same for all indices of the window.
    pub(crate) fn lift_window(&self, rows: &mut [[Need; 20]; 100])
        ensures { Lifted (slots self.now.search) (by_window (pool_of self.now.search) (M.meaning self.now.memory.now) (asked self.now.search) ((M.meaning self.now.memory.now).next - (M.meaning self.now.memory.now).window) (M.meaning self.now.memory.now).window) rows.old rows.new }
    {
        let next = self.memory.next_index();
        for z in next - self.memory.window()..next {
            self.lift_index(rows, z);
        }
    }
}
