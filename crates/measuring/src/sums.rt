// Sums of readings: how many samples a slot has, and for each first sub-channel the sum of their readings.
ghost use Rattle.std.specs.Prelude.{◌≡◌, ℕ, ◌+◌, ◌*◌, ◌<◌, ◌≤◌, length, slice_index, slice_index_or, sum_by};
ghost use Rattle.choosing.specs.Fits.{index_of};
ghost use Rattle.measuring.specs.Bounds.{most};
ghost use Rattle.measuring.specs.Sums.{lies, total, NoneYet, More, AllMore, AllUpTo, column};

use crate::{Powers, Sum};
use choosing::Slot;
use std::array;

// The sum of at most 20 readings, which a function of its own can bound.
fn sum_of(readings: &[u32]) -> u64
    requires { length readings.now ≤ 20 }
    ensures value { result ≡ sum_by (λ r. r) readings.now }
    ensures few { result ≤ most }
{
    readings.iter().map(|r| u64::from(*r)).sum()
}

// The sum of the readings of n sub-channels from x on, or 0 where there are fewer.
fn power(readings: &[u32; 20], n: usize, x: usize) -> u64
    requires { (n ≤ 255) × (x < 20) }
    ensures value { x + n ≤ 20 → result ≡ total readings.now n x }
    ensures few { result ≤ most }
{
    let Some(part) = readings.get(x..x + n) else {
        return 0;
    };
    sum_of(part)
}

impl Powers {
    // The sums of the readings of n sub-channels each.
    pub(crate) fn new(readings: &[u32; 20], n: usize) -> Powers
        requires { n ≤ 255 }
        ensures { (x : ℕ) → x < 20 → x + n ≤ 20 → slice_index result.from x ≡ total readings.now n x }
    {
        Powers {
            from: array::from_fn(|x| power(readings, n, x)),
        }
    }
}

impl Sum {
    // No sample yet, of a slot at an index.
    pub(crate) fn none(at: u64) -> Sum
        ensures { NoneYet at result }
    {
        Sum {
            at,
            under: 0,
            over: [0; 20],
        }
    }

    // Is the index z a sample of it, some whole steps before its own? An index after its own counts as one at it.
    fn has(&self, z: u64, step: u64) -> bool
        ensures { result ≡ lies step z self.now.at }
    {
        self.at.saturating_sub(z).is_multiple_of(step)
    }

    // Adds the powers of an index z, if that is a sample of it.
    fn add(&mut self, z: u64, step: u64, powers: &Powers)
        requires { self.old.under < 1000 }
        ensures { More (lies step z self.old.at) (λ x. slice_index powers.now.from x) self.old self.new }
    {
        if !self.has(z, step) {
            return;
        }
        *self = Sum {
            at: self.at,
            under: self.under + 1,
            over: array::from_fn(|x| self.over[x] + powers.from[x]),
        };
    }
}

// The index of a slot, or 0 past the last one.
fn index_at(slots: &[Slot], i: usize) -> u64
    ensures { result ≡ index_of slots.now i }
{
    slots.get(i).map_or(0, |slot| slot.index)
}

// No sample yet of any slot.
pub(crate) fn none_yet(slots: &[Slot]) -> [Sum; 100]
    ensures { (i : ℕ) → i < 100 → (d : _) → NoneYet (index_of slots.now i) (slice_index_or result i d) }
{
    array::from_fn(|i| Sum::none(index_at(slots, i)))
}

// Adds the powers of an index z to the sums whose sample it is.
pub(crate) fn add_all(sums: &mut [Sum], z: u64, step: u64, powers: &Powers)
    requires { AllUpTo 999 sums.old }
    ensures { AllMore step z (λ x. slice_index powers.now.from x) sums.old sums.new }
{
    for sum in sums.iter_mut() {
        sum.add(z, step, powers);
    }
}
