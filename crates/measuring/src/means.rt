// The means of all candidates by one walk over the window, and their order.
ghost use Rattle.std.specs.Prelude.{◌≡◌, ℕ, ◌+◌, ◌<◌, ◌≤◌, List, [], length, slice_index_or};
ghost use Rattle.pool.specs.Pools.{meaning as pool_meaning};
ghost use Rattle.rules.specs.Choose.{lower as lower_mean, sample_step};
ghost use Rattle.rules.specs.Sensing.{Inside};
ghost use Rattle.choosing.specs.Asked.{question_of};
ghost use Rattle.choosing.specs.Found.{slots_of};
ghost use Rattle.choosing.specs.Fits.{Fit};
ghost use Rattle.measuring.specs.Means.{fraction_of, MeansOf, MeansAre};
ghost use Rattle.measuring.specs.Sums.{Heard, AllAdded, AllUpTo, column, fraction};

use crate::sums::{add_all, none_yet};
use crate::{Mean, Powers, Sum};
use choosing::{Candidates, Question};
use pool::Pool;
use sensing::Asking;
use std::array;

// Is the first mean lower? One that is absent is lower than none, and any other is lower than it.
pub fn lower(x: Option<Mean>, y: Option<Mean>) -> bool
    ensures { result ≡ lower_mean (fraction_of x) (fraction_of y) }
{
    // Means are taken apart by `let .. else`, so that each absence stands beside its own answer.
    let Some(a) = x else {
        return false;
    };
    let Some(b) = y else {
        return true;
    };
    a.over * u64::from(b.under) < b.over * u64::from(a.under)
}

// How far two samples lie apart.
fn sample_step(pool: &Pool, q: &Question) -> u64
    ensures { result ≡ sample_step (pool_meaning pool.now) (question_of q.now) }
{
    // A number and no enum: callers fill a code in as a number, and each number has an answer.
    if q.code <= 10 {
        u64::from(pool.step())
    } else {
        u64::from(pool.distance(q.code))
    }
}

// The readings of all sub-channels at an index, if it was listened to.
fn readings_at<M: Asking>(m: &M, z: u64) -> Option<[u32; 20]>
    requires { Inside (M.meaning m.now) z }
    ensures { Heard (M.meaning m.now) z result }
{
    let mut readings = [0; 20];
    // By place: the memory is asked by the number of a sub-channel, which a loop over the places would have to make from each.
    for a in 0..m.channels() {
        readings[usize::from(a)] = m.reading(z, a).ok()??;
    }
    Some(readings)
}

// Adds the readings of an index, if it was listened to, to the sums whose sample it is. Each call has an index of its own, so
// that it lies inside is asked of each.
fn add_index<M: Asking>(m: &M, q: &Question, sums: &mut [Sum], step: u64, z: u64)
    requires { Inside (M.meaning m.now) z × AllUpTo 999 sums.old }
    ensures { AllAdded (M.meaning m.now) (question_of q.now) step z sums.old sums.new }
{
    let Some(readings) = readings_at(m, z) else {
        return;
    };
    let powers = Powers::new(&readings, usize::from(q.length));
    add_all(sums, z, step, &powers);
}

impl Sum {
    // The mean at a first sub-channel, absent where there is no sample.
    fn mean(&self, x: usize) -> Option<Mean>
        requires { x < 20 }
        ensures { fraction_of result ≡ fraction (column self.now x) self.now.under }
    {
        if self.under == 0 {
            return None;
        }
        Some(Mean {
            over: self.over[x],
            under: self.under,
        })
    }

    // The means by first sub-channel.
    fn means(&self) -> [Option<Mean>; 20]
        ensures { MeansOf self.now result }
    {
        array::from_fn(|x| self.mean(x))
    }
}

// The means of each slot that has sums. By place, into one array: a chain over an array of sums would move both arrays about.
fn rows(sums: &[Sum]) -> [[Option<Mean>; 20]; 100]
    requires { length sums.now ≤ 100 }
    ensures { (i : ℕ) → i < length sums.now → (d : _) → MeansOf (slice_index_or sums.now i d) (slice_index_or result i []) }
{
    let mut rows = [[None; 20]; 100];
    for (i, sum) in sums.iter().enumerate() {
        rows[i] = sum.means();
    }
    rows
}

// For each slot and first sub-channel the mean of that candidate. It speaks of memories that fit the pool.
pub fn means<M: Asking>(
    pool: &Pool,
    m: &M,
    q: &Question,
    c: &Candidates,
) -> [[Option<Mean>; 20]; 100]
    ensures { Fit (pool_meaning pool.now) (M.meaning m.now) → MeansAre (pool_meaning pool.now) (M.meaning m.now) (question_of q.now) (slots_of c.now) result }
{
    let slots = c.slots();
    // There is no heap, so each array has room for the most slots that a question can have, 100.
    let mut all = none_yet(slots);
    let sums = &mut all[..slots.len()];
    let step = sample_step(pool, q);
    let next = m.next_index();
    for z in next - m.window()..next {
        add_index(m, q, sums, step, z);
    }
    rows(sums)
}
