// From which raise on each candidate survives.
#![tactic(auto)]

ghost use Rattle.std.specs.Prelude.{◌≡◌, ◌≤◌, not};
ghost use Rattle.pool.specs.Pools.{meaning as pool_meaning};
ghost use Rattle.choosing.specs.Asked.{question_of};
ghost use Rattle.choosing.specs.Found.{slots_of};
ghost use Rattle.choosing.specs.Fits.{Fit};
ghost use Rattle.reserving.specs.Lifts.{Flagged};
ghost use Rattle.reserving.specs.Needs.{bars, NeedsAre};

mod freed;
mod lifts;
mod walks;

use crate::walks::Walk;
use choosing::blinds::blinded;
use choosing::{Candidates, LATEST, Question, Search};
use pool::Pool;
use sensing::Asking;

// From how many raises on a candidate survives. The order is by that number, with Never last.
#[derive(Clone, Copy, PartialEq, Eq, PartialOrd, Ord, Debug, Default)]
pub enum Need {
    From(u8),
    #[default]
    Never,
}

impl Need {
    // Are so many raises enough?
    pub fn allows(self, raise: u8) -> bool
        ensures { result ≡ not (bars self raise) }
    {
        self <= Need::From(raise)
    }
}

// Lifts the needs of the slots that have a flag past all raises.
fn lift_blinded(rows: &mut [[Need; 20]; 100], flags: &[bool; 100])
    ensures { Flagged flags.now rows.old rows.new }
{
    // By place; tried: a loop over `rows.iter_mut().zip(..)`, but a proof knows nothing of the rows after it.
    for (i, flag) in flags.iter().enumerate() {
        if *flag {
            rows[i] = [Need::Never; 20];
        }
    }
}

// For each slot and first sub-channel the raise from which that candidate survives. It speaks of memories that fit the
// pool, and can't fail at others: callers take rows. There is room for 100 slots, however many there are, since memory is fixed.
pub fn needs<M: Asking>(pool: &Pool, m: &M, q: &Question, c: &Candidates) -> [[Need; 20]; 100]
    ensures { Fit (pool_meaning pool.now) (M.meaning m.now) → (question_of q.now).priority ≤ 7 → NeedsAre (pool_meaning pool.now) (M.meaning m.now) (question_of q.now) (slots_of c.now) result }
{
    if m.next_index() > LATEST || q.priority > 7 {
        return [[Need::Never; 20]; 100];
    }
    let mut rows = [[Need::From(0); 20]; 100];
    let walk = Walk {
        memory: m,
        search: Search::new(pool, q, c),
    };
    walk.lift_window(&mut rows);
    let flags = blinded(pool, m, q, c);
    lift_blinded(&mut rows, &flags);
    rows
}
