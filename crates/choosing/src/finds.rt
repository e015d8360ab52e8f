// Finding the candidates of a question.
ghost use Rattle.std.specs.Prelude.{◌≡◌, ℕ, ◌+◌, ◌-◌, ◌*◌, ◌^◌, ◌<◌, ◌≤◌, true, List, [], ◌∷◌, ◌++◌, map, length, MatchOption, slice_index_or};
ghost use Rattle.pool.specs.Pools.{meaning};
ghost use Rattle.rules.specs.Choose.{subframes};
ghost use Rattle.choosing.specs.Asked.{question_of};
ghost use Rattle.choosing.specs.Slots.{origin, slot_at, shown};
ghost use Rattle.choosing.specs.Found.{Found, slots_of, pool_index, slots_from};

use crate::{Candidates, LATEST, Question, Slot};
use answer::Refusal;
use pool::Pool;

impl Candidates {
    fn none(width: u8) -> Candidates
        requires { width ≤ 20 }
        ensures { (slots_of result ≡ []) × (result.count ≡ 0) × (result.width ≡ width) }
    {
        Candidates {
            slots: [Slot {
                subframe: 0,
                index: 0,
            }; 100],
            count: 0,
            width,
        }
    }

    // Adds a slot. The count stands beside the slots for the reason given at the type.
    fn push(&mut self, slot: Slot)
        requires { self.old.count < 100 }
        ensures slots { slots_of self.new ≡ slots_of self.old ++ slot ∷ [] }
        ensures count { self.new.count ≡ self.old.count + 1 }
        ensures width { self.new.width ≡ self.old.width }
    {
        self.slots[self.count] = slot;
        self.count += 1;
    }

    // How many subframes the candidates lie in.
    pub fn subframes(&self) -> usize
        ensures { result ≡ length (slots_of self.now) }
    {
        self.slots().len()
    }

    // The subframes that the candidates lie in, with their indices.
    pub fn slots(&self) -> &[Slot]
        ensures value { result.now ≡ slots_of self.now }
        ensures few { length result.now ≤ 100 }
    {
        &self.slots[..self.count]
    }

    // How many first sub-channels each of them has.
    pub fn width(&self) -> u8
        ensures { result ≡ self.now.width }
    {
        self.width
    }

    // M, how many candidates there are.
    pub fn count(&self) -> u32
        ensures { result ≡ length (slots_of self.now) * self.now.width }
    {
        self.count as u32 * u32::from(self.width)
    }

    // The subframe at a place among them, with its index.
    pub fn slot(&self, i: usize) -> Option<Slot>
        ensures { MatchOption result (length (slots_of self.now) ≤ i) (λ s. (i < length (slots_of self.now)) × (s ≡ slice_index_or (slots_of self.now) i origin)) }
    {
        self.slots().get(i).copied()
    }
}

// Is the subframe one of the pool's? Then its index.
fn pool_index(pool: &Pool, subframe: u64) -> Option<u64>
    ensures { result ≡ pool_index (meaning pool.now) subframe }
{
    pool.index(subframe).filter(|index| pool.in_pool(*index))
}

// The slots of the subframes from `first` to before `end` that are in the pool.
fn find(pool: &Pool, first: u64, end: u64, width: u8) -> Candidates
    requires { (first ≤ end) × (end ≤ first + 100) × (width ≤ 20) }
    ensures slots { slots_of result ≡ slots_from (meaning pool.now) first (end - first) }
    ensures width { result.width ≡ width }
{
    let mut found = Candidates::none(width);
    for subframe in first..end {
        if let Some(index) = pool_index(pool, subframe) {
            found.push(Slot { subframe, index });
        }
    }
    found
}

// The candidates of a question at a subframe, or the first question from 34 to 40 that is answered no. It speaks of subframes
// below 2^63, and can be asked at others.
pub fn candidates(pool: &Pool, at: u64, q: &Question) -> Result<Candidates, Refusal>
    ensures { at < 2 ^ 63 → Found (meaning pool.now) at (question_of q.now) result }
{
    q.check(pool)?;
    let now = at.min(LATEST);
    let found = find(
        pool,
        now + u64::from(q.from),
        now + u64::from(q.to) + 1,
        pool.channels() + 1 - q.length,
    );
    if found.count == 0 {
        return Err(Refusal::NoCandidate);
    }
    Ok(found)
}
