// The order of candidates, and that of places.
ghost use Rattle.std.specs.Prelude.{◌≡◌, refl};
ghost use Rattle.std.specs.Ordering.{eq_by_cmp, as_partial_cmp};
ghost use Rattle.rules.specs.Ranks.{rank_by};
ghost use Rattle.selecting.specs.Entries.{before, sooner};
ghost use Rattle.selecting.specs.Orders.{sooner_total};
ghost use Rattle.std.specs.Cmp as Keys;
ghost use Rattle.std.specs.Cmp.{partial_order_from_agreeing_total};

use crate::{Entry, Place};
use measuring::means::lower;
use std::cmp::Ordering;

// The order of choosing: the lower mean first, then the place that comes first.
pub(crate) fn rank(a: &Entry, b: &Entry) -> Ordering
    ensures { result ≡ rank_by before a.now b.now }
{
    if lower(a.mean, b.mean) {
        return Ordering::Less;
    }
    if lower(b.mean, a.mean) {
        return Ordering::Greater;
    }
    a.place.cmp(&b.place)
}

// Places are compared by index and then sub-channel. This is no derive, since the subframe takes no part.
impl PartialEq for Place {
    ghost eq = { eq_by_cmp (rank_by sooner) };

    ghost laws = { Keys.partial_equiv_from_equiv (Keys.eq_by_cmp_equiv sooner_total) };

    fn eq(&self, other: &Place) -> bool {
        self.cmp(other).is_eq()
    }
}

impl Eq for Place {
    ghost laws = { Keys.eq_by_cmp_equiv sooner_total };
}

impl PartialOrd for Place {
    ghost partial_cmp = { as_partial_cmp (rank_by sooner) };

    ghost laws = { partial_order_from_agreeing_total (rank_by sooner) sooner_total (λ _ _. refl) (λ _ _. refl) };

    fn partial_cmp(&self, other: &Place) -> Option<Ordering> {
        Some(self.cmp(other))
    }
}

impl Ord for Place {
    ghost cmp = { rank_by sooner };

    ghost total = { sooner_total };

    ghost matches_partial_cmp = { λ _ _. refl };

    ghost matches_eq = { λ _ _. refl };

    fn cmp(&self, other: &Place) -> Ordering {
        (self.index, self.channel).cmp(&(other.index, other.channel))
    }
}
