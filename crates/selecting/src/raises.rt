// The raise of a selection, and the fewest raises that leave a fifth of the candidates.
ghost use Rattle.std.specs.Prelude.{◌≡◌, ℕ, ◌≤◌, length};
ghost use Rattle.selecting.specs.Lifts.{Lifted};

use crate::lists::count_free;
use crate::{Entry, Raise};
use answer::Refusal;

impl Raise {
    pub fn new() -> Raise
        ensures { result.steps ≡ 0 }
    {
        Raise { steps: 0 }
    }
}

// Sets the raise back to zero when it ends.
pub(crate) struct RaiseGuard<'a>(pub(crate) &'a mut Raise);

impl Drop for RaiseGuard<'_> {
    fn drop(self)
        ensures { self.exit.0.now.steps ≡ 0 }
    {
        self.0.steps = 0;
        let RaiseGuard(_) = self;
    }
}

// Raises from zero until a fifth of the candidates survives, or answers 41 where 43 raises do not suffice.
pub(crate) fn lift(entries: &[Entry], raise: &mut Raise) -> Result<(), Refusal>
    requires { length entries.now ≤ 2000 }
    ensures { Lifted entries.now result raise.new.steps }
{
    for steps in 0..44u8 {
        raise.steps = steps;
        if 5 * count_free(entries, steps) >= entries.len() {
            return Ok(());
        }
    }
    Err(Refusal::TooFew)
}
