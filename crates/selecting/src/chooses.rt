// The selection: candidates, the fewest raises, and the report.
ghost use Rattle.std.specs.Prelude.{◌≡◌, ℕ, ◌^◌, ◌<◌, ◌≤◌, length};
ghost use Rattle.pool.specs.Pools.{meaning as pool_meaning};
ghost use Rattle.choosing.specs.Asked.{question_of};
ghost use Rattle.choosing.specs.Fits.{Fit};
ghost use Rattle.choosing.specs.Found.{slots_of};
ghost use Rattle.selecting.specs.Lists.{rows_of};
ghost use Rattle.selecting.specs.Chosen.{Selected, Chosen};

use crate::lists::list;
use crate::raises::{RaiseGuard, lift};
use crate::reports::report;
use crate::{Raise, Report};
use answer::Refusal;
use arrayvec::ArrayVec;
use choosing::finds::candidates;
use choosing::{Candidates, Question};
use measuring::Mean;
use measuring::means::means;
use pool::Pool;
use reserving::{Need, needs};
use sensing::Asking;

// Selects among candidates of which it is known from which raise each survives, and its mean.
fn select(
    found: &Candidates,
    needs: &[[Need; 20]; 100],
    means: &[[Option<Mean>; 20]; 100],
    q: &Question,
    apart: u32,
    raise: &mut Raise,
) -> Result<Report, Refusal>
    ensures { Selected (rows_of (slots_of found.now) found.now.width needs.now means.now (length (slots_of found.now))) q.now apart result }
{
    let mut entries = ArrayVec::new();
    list(&mut entries, found, needs, means);
    lift(&entries, raise)?;
    Ok(report(&mut entries, raise.steps, *q, apart))
}

// Looks for the candidates of a question, for what was heard of them, and selects among them.
// It takes what `choose` takes: callers hold these five apart, and a struct of them would be made for this one call.
fn look<M: Asking>(
    pool: &Pool,
    at: u64,
    m: &M,
    q: &Question,
    raise: &mut Raise,
) -> Result<Report, Refusal>
    ensures { at < 2 ^ 63 → Fit (pool_meaning pool.now) (M.meaning m.now) → Chosen (pool_meaning pool.now) at (M.meaning m.now) (question_of q.now) result }
{
    let found = candidates(pool, at, q)?;
    let free_from = needs(pool, m, q, &found);
    let heard = means(pool, m, q, &found);
    let apart = pool.distance(q.code);
    select(&found, &free_from, &heard, q, apart, raise)
}

// Chooses for a question of the scheduler at a subframe: a report, or the first question of 34 to 38, 40 and 41 that is
// answered no. The memory is only asked, and the raise is zero again on every way out. It speaks of memories that fit the pool,
// and of subframes below 2^63. The scheduler holds its five parameters apart.
pub fn choose<M: Asking>(
    pool: &Pool,
    at: u64,
    m: &M,
    q: &Question,
    raise: &mut Raise,
) -> Result<Report, Refusal>
    ensures zero { raise.new.steps ≡ 0 }
    ensures chosen { at < 2 ^ 63 → Fit (pool_meaning pool.now) (M.meaning m.now) → Chosen (pool_meaning pool.now) at (M.meaning m.now) (question_of q.now) result }
{
    let guard = RaiseGuard(raise);
    look(pool, at, m, q, guard.0)
}
