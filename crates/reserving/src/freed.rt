// From which raise on a record reserves nothing.
ghost use Rattle.std.specs.Prelude.{◌≡◌, ℕ, ◌*◌, ◌≤◌, true, nat_lt};
ghost use Rattle.rules.specs.Choose.{above};
ghost use Rattle.rules.specs.Sensing.{rsrp_ok};
ghost use Rattle.reserving.specs.Needs.{bars};

use crate::Need;
use pool::levels::finite_level;

// How many raises of 3 dB it takes to reach so many tenths of a dB.
fn raises_over(over: u16) -> u8
    requires { over ≤ 1280 }
    ensures value { (raise : ℕ) → nat_lt (30 * raise) over ≡ nat_lt raise result }
    ensures few { result ≤ 43 }
{
    over.div_ceil(30) as u8
}

// The first raise at which an RSRP is not above the threshold of a level. At level 0 there is none.
pub(crate) fn freed_at(level: u8, rsrp: i16) -> Need
    requires { rsrp_ok rsrp ≡ true }
    ensures { (raise : ℕ) → above level raise rsrp ≡ bars result raise }
{
    // A number and no enum: a pool's levels are numbers of a table, in which 0 is below every RSRP.
    if level == 0 {
        return Need::Never;
    }
    match finite_level(level) {
        Some(threshold) if rsrp > threshold => Need::From(raises_over(rsrp.abs_diff(threshold))),
        _ => Need::From(0),
    }
}
