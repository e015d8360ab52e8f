// Lifting the needs of candidates that a record reserves.
ghost use Rattle.std.specs.Prelude.{◌≡◌, ◌+◌, ◌-◌, ◌^◌, ◌<◌, ◌≤◌};
ghost use Rattle.rules.specs.Choose.{share};
ghost use Rattle.format1.specs.Records.{meant_of};
ghost use Rattle.choosing.specs.Searches.{pool_of, asked, slots};
ghost use Rattle.reserving.specs.Lifts.{RowLifted, Lifted, by_share, by_turn, by_base};

use crate::Need;
use choosing::Search;
use format1::Record;

// Sub-channels in a row.
#[derive(Clone, Copy)]
pub(crate) struct Span {
    first: u8,
    many: u8,
}

impl Span {
    // Do the two share a sub-channel?
    fn shares(self, other: Span) -> bool
        ensures { result ≡ share self.first self.many other.first other.many }
    {
        u16::from(self.first) < u16::from(other.first) + u16::from(other.many)
            && u16::from(other.first) < u16::from(self.first) + u16::from(self.many)
    }
}

// Lifts the needs of the first sub-channels from which `wide` ones share one with those that are taken.
fn lift_row(row: &mut [Need; 20], wide: u8, taken: Span, need: Need)
    ensures { RowLifted (by_share wide taken.first taken.many need) row.old row.new }
{
    for (x, own) in row.iter_mut().enumerate() {
        let here = Span {
            first: x as u8,
            many: wide,
        };
        if here.shares(taken) {
            *own = (*own).max(need);
        }
    }
}

// Lifts the candidates for which t is a turn, if they use one of the sub-channels that are taken.
fn lift_turn(rows: &mut [[Need; 20]; 100], search: &Search, t: u64, taken: Span, need: Need)
    ensures { Lifted (slots search.now) (by_turn (pool_of search.now) (asked search.now) t taken.first taken.many need) rows.old rows.new }
{
    // By place; tried: a loop over `rows.iter_mut().zip(..)`, but a proof knows nothing of the rows after it.
    for (i, slot) in search.slots.iter().enumerate() {
        if search.is_turn(slot.index, t) {
            lift_row(&mut rows[i], search.question.length, taken, need);
        }
    }
}

// Lifts the candidates that a record takes, which was heard at a resource and is based at b.
pub(crate) fn lift_base(
    rows: &mut [[Need; 20]; 100],
    search: &Search,
    what: &Record,
    resource: u8,
    b: u64,
    need: Need,
)
    requires { b < 2 ^ 64 - 2 ^ 8 }
    ensures { Lifted (slots search.now) (by_base (pool_of search.now) (asked search.now) (meant_of what.now) resource b need) rows.old rows.new }
{
    let own = Span {
        first: resource,
        many: what.length,
    };
    lift_turn(rows, search, b, own, need);
    let Some(t) = what.partner(b) else {
        return;
    };
    let other = Span {
        first: what.start,
        ..own
    };
    lift_turn(rows, search, t, other, need);
}
