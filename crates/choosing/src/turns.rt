// The turns of a candidate, and how often an interval is counted.
ghost use Rattle.std.specs.Prelude.{◌≡◌, ℕ, ◌≤◌};
ghost use Rattle.pool.specs.Pools.{meaning as pool_meaning};
ghost use Rattle.rules.specs.Choose.{turn, repeats as repeats_of};

use pool::Pool;

// Is t one of the turns y, y + apart, and so on? There is no loop over them.
pub fn is_turn(y: u64, apart: u64, turns: u64, t: u64) -> bool
    ensures { result ≡ turn y apart turns t }
{
    if t < y {
        return false;
    }
    if apart == 0 {
        return t == y && turns > 0;
    }
    (t - y) % apart == 0 && (t - y) / apart < turns
}

// Q(c, g), how often a code is counted from an index that lies g before the next one.
pub fn repeats(pool: &Pool, code: u8, g: u64) -> u64
    ensures value { result ≡ repeats_of (pool_meaning pool.now) code g }
    ensures few { result ≤ 5 }
{
    if g > u64::from(pool.distance(code)) {
        return 1;
    }
    // A number and no enum: callers fill a code in as a number, and each number has an answer.
    match code {
        11 => 2,
        12 => 5,
        _ => 1,
    }
}
