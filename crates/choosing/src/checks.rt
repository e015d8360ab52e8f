// The questions that a question of the scheduler is put by itself.
ghost use Rattle.std.specs.Prelude.{◌≡◌, ◌&&◌, nat_le};
ghost use Rattle.answer.specs.Numbers.{answered};
ghost use Rattle.pool.specs.Pools.{meaning};
ghost use Rattle.rules.specs.Counting.{first_no};
ghost use Rattle.rules.specs.Choose.{question_questions};
ghost use Rattle.choosing.specs.Asked.{question_of};

use crate::Question;
use answer::Refusal;
use pool::Pool;

impl Question {
    // Is T1 from 1 to 4, and T2 from 20 to 100?
    fn has_times(&self) -> bool
        ensures { result ≡ (nat_le 1 self.now.from && nat_le self.now.from 4 && nat_le 20 self.now.to && nat_le self.now.to 100) }
    {
        (1..=4).contains(&self.from) && (20..=100).contains(&self.to)
    }

    // Is the question within its limits, in this pool? 34 to 38.
    pub fn check(&self, pool: &Pool) -> Result<(), Refusal>
        ensures { answered result ≡ first_no (question_questions (meaning pool.now) (question_of self.now)) }
    {
        if !(1..=pool.channels()).contains(&self.length) {
            return Err(Refusal::Length);
        }
        if !pool.allows(self.code) {
            return Err(Refusal::Interval);
        }
        if !(1..=750).contains(&self.turns) {
            return Err(Refusal::Turns);
        }
        if self.priority > 7 {
            return Err(Refusal::Priority);
        }
        if !self.has_times() {
            return Err(Refusal::Times);
        }
        Ok(())
    }
}
