// A search among candidates: what stays the same while a memory is walked through.
ghost use Rattle.std.specs.Prelude.{◌≡◌, ℕ, ◌≤◌, length};
ghost use Rattle.rules.specs.Choose.{interval, turn};
ghost use Rattle.choosing.specs.Found.{slots_of};
ghost use Rattle.choosing.specs.Searches.{pool_of, asked, slots};

use crate::turns::is_turn;
use crate::{Candidates, Question, Search};
use pool::Pool;

impl<'a> Search<'a> {
    // The search for a question, among its candidates.
    pub fn new(pool: &'a Pool, question: &'a Question, candidates: &'a Candidates) -> Search<'a>
        ensures pool { result.pool.now ≡ pool.now }
        ensures question { result.question.now ≡ question.now }
        ensures slots { slots result ≡ slots_of candidates.now }
    {
        Search {
            pool,
            question,
            slots: candidates.slots(),
            apart: u64::from(pool.distance(question.code)),
        }
    }

    // Is t one of the turns of a candidate at y?
    pub fn is_turn(&self, y: u64, t: u64) -> bool
        ensures { result ≡ turn y (interval (pool_of self.now) (asked self.now)) (asked self.now).turns t }
    {
        is_turn(y, self.apart, u64::from(self.question.turns), t)
    }
}
