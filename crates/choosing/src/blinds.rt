// Which candidates are blinded: some turn of theirs may be one that a neighbour announced in a subframe that was not
// listened to.
ghost use Rattle.std.specs.Prelude.{◌≡◌, ℕ, ◌^◌, ◌≤◌};
ghost use Rattle.pool.specs.Pools.{meaning as pool_meaning};
ghost use Rattle.rules.specs.Calendar.{window};
ghost use Rattle.rules.specs.Sensing.{Inside};
ghost use Rattle.rules.specs.Choose.{interval, turn, blinds};
ghost use Rattle.choosing.specs.Asked.{question_of};
ghost use Rattle.choosing.specs.Blinds.{Marked, by_one, BlindedAre};
ghost use Rattle.choosing.specs.Found.{slots_of};
ghost use Rattle.choosing.specs.Searches.{pool_of, asked, slots};

use crate::turns::repeats;
use crate::{Candidates, LATEST, Question, Search};
use pool::Pool;
use sensing::{Asking, State};

impl Search<'_> {
    // Marks the subframes for which t is a turn.
    fn mark_turn(&self, flags: &mut [bool; 100], t: u64)
        ensures { Marked (slots self.now) (λ y. turn y (interval (pool_of self.now) (asked self.now)) (asked self.now).turns t) flags.old flags.new }
    {
        // By place; tried: a loop over `flags.iter_mut().zip(..)`, but a proof knows nothing of the flags after it.
        for (i, slot) in self.slots.iter().enumerate() {
            flags[i] |= self.is_turn(slot.index, t);
        }
    }

    // Marks the subframes that have a turn by the code, if it is allowed, from an index z that lies g before the next one.
    fn mark_code(&self, flags: &mut [bool; 100], z: u64, g: u64, code: u8)
        requires { z ≤ 2 ^ 63 }
        ensures { Marked (slots self.now) (by_one (pool_of self.now) (asked self.now) z g code) flags.old flags.new }
    {
        if !self.pool.allows(code) {
            return;
        }
        let d = u64::from(self.pool.distance(code));
        for k in 1..=repeats(self.pool, code, g) {
            self.mark_turn(flags, z + k * d);
        }
    }

    // Marks the subframes that an index of the memory blinds. That the index lies inside is asked of each call, since each has
    // an index of its own.
    fn mark_index<M: Asking>(&self, m: &M, flags: &mut [bool; 100], z: u64)
        requires { ((M.meaning m.now).next ≤ 2 ^ 63) × Inside (M.meaning m.now) z }
        ensures { Marked (slots self.now) (λ y. blinds (pool_of self.now) (M.meaning m.now) (asked self.now) y z) flags.old flags.new }
    {
        let Ok(state) = m.state(z) else {
            return;
        };
        if state == State::Listened {
            return;
        }
        let g = m.next_index() - z;
        for code in 1..=12 {
            self.mark_code(flags, z, g, code);
        }
    }
}

// Which of the candidates' subframes are blinded, by one walk over the window. It speaks of memories that fit the pool, and
// can't fail at others: callers take flags. There is room for 100 slots, however many there are, since memory is fixed.
pub fn blinded<M: Asking>(pool: &Pool, m: &M, q: &Question, c: &Candidates) -> [bool; 100]
    ensures { (M.meaning m.now).next ≤ 2 ^ 63 → (M.meaning m.now).window ≡ window (pool_meaning pool.now) → BlindedAre (pool_meaning pool.now) (M.meaning m.now) (question_of q.now) (slots_of c.now) result }
{
    let mut flags = [false; 100];
    let next = m.next_index();
    if next > LATEST {
        return flags;
    }
    let search = Search::new(pool, q, c);
    for z in next - m.window()..next {
        search.mark_index(m, &mut flags, z);
    }
    flags
}
